//! Reads the forms of a text from left to right, with the indexes of open lists on a stack.

ghost use Rattle.std.specs.Prelude.{◌≡◌, ◌≢◌, ◌≤◌, ◌+◌, ◌++◌, ◌∷◌, ℕ, List, [], IfOk, IfErr, OnOk, length};
ghost use Rattle.model_forms.specs.Rows.{AreForms, Row, Spells};
ghost use Rattle.model_forms.specs.Faults.{IsFaultOf, Opening};
ghost use Rattle.model_forms.specs.Reading.{Closed, HasRead, IsShaped, Shaped, list_opening, fault_at_end};
ghost use Rattle.model_forms.specs.Seen.{IsNext};
ghost use Rattle.model_forms.specs.declared.fault.FormFault.TheVariants.{NoMemory};

use crate::fault::FormFault;
use crate::form::{Form, FormKind};
use crate::token::{Token, TokenKind, token_at};
use std::alloc::{AllocError, Global};

/// The forms that have been read, and the lists that are still open.
#[derive(Drop)]
pub(crate) struct Read {
    /// The forms that have been read. An open list has `end` 0 and `inside` 0.
    pub forms: Vec<Form>,
    /// The index in `forms` of each open list, the innermost last.
    pub open_lists: Vec<usize>,
}

// Opens a list.
fn open_list(read: &mut Read, start: usize) -> Result<(), AllocError>
    ensures forms { OnOk result (read.new.forms.items ≡ read.old.forms.items ++ (list_opening start ∷ [])) }
    ensures open_ones { OnOk result (read.new.open_lists.items ≡ read.old.open_lists.items ++ (length read.old.forms.items ∷ [])) }
{
    read.open_lists.push(read.forms.len())?;
    read.forms.push(Form {
        kind: FormKind::List,
        start,
        end: 0,
        inside: 0,
    })?;
    Ok(())
}

// Closes the innermost list at `end`, and returns whether a list was open.
fn close_list(read: &mut Read, end: usize) -> bool
    requires { IsShaped read.old }
    ensures { (os : List Opening) (row : Row) → Shaped read.old os row → Closed os row end result read.new }
{
    let Some(index) = read.open_lists.pop() else {
        return false;
    };
    let inside = read.forms.len() - index - 1;
    let start = read.forms[index].start;
    read.forms[index] = Form {
        kind: FormKind::List,
        start,
        end,
        inside,
    };
    true
}

// Adds a form that isn't a list.
fn plain_form(read: &mut Read, kind: FormKind, token: Token) -> Result<(), AllocError>
    ensures forms { OnOk result (read.new.forms.items ≡ read.old.forms.items ++
        (record { kind = kind; start = token.start; end = token.end; inside = 0 } ∷ [])) }
    ensures open_ones { read.new.open_lists.items ≡ read.old.open_lists.items }
{
    read.forms.push(Form {
        kind,
        start: token.start,
        end: token.end,
        inside: 0,
    })?;
    Ok(())
}

// Adds a token to what has been read, or returns the fault of the token.
fn take_token(read: &mut Read, token: Token) -> Result<(), FormFault>
    requires { IsShaped read.old }
    ensures more { (text : List ℕ) (at : ℕ) → HasRead text at read.old → IsNext text at token →
        OnOk result (HasRead text token.end read.new) }
    ensures fault { (text : List ℕ) (at : ℕ) → HasRead text at read.old → IsNext text at token →
        IfErr result (IsFaultOf text) }
{
    match token.kind {
        TokenKind::Open => open_list(read, token.start)?,
        TokenKind::Close => {
            if !close_list(read, token.end) {
                return Err(FormFault::Unopened(token.start));
            }
        }
        TokenKind::Word => plain_form(read, FormKind::Word, token)?,
        TokenKind::Text => plain_form(read, FormKind::Text, token)?,
        TokenKind::Unclosed => return Err(FormFault::UnclosedText(token.start)),
    }
    Ok(())
}

// The fault of a text that ends here, if a list is open.
fn fault_at_end(read: &mut Read) -> Option<FormFault>
    requires { IsShaped read.old }
    ensures fault { (os : List Opening) (row : Row) → Shaped read.old os row → result ≡ fault_at_end os }
    ensures kept { read.new.forms.items ≡ read.old.forms.items }
{
    let count = read.open_lists.len();
    let innermost = read.open_lists.pop()?;
    Some(FormFault::Unclosed(count, read.forms[innermost].start))
}

/// Returns the forms of a text, or its first fault.
pub fn read_forms(alloc: Global, text: &[u8]) -> Result<Vec<Form>, FormFault>
    ensures forms { IfOk result (λ forms. AreForms text.now forms.items) }
    ensures fault { IfErr result (IsFaultOf text.now) }
    ensures refused { IfErr result (λ e. e ≢ NoMemory → (row : Row) → Spells text.now row → ⊥) }
{
    let mut read = Read {
        forms: Vec::new(alloc),
        open_lists: Vec::new(alloc),
    };
    let mut at = 0;
    while let Some(token) = token_at(text, at) {
        match take_token(&mut read, token) {
            Ok(()) => at = token.end,
            Err(fault) => return Err(fault),
        }
    }
    match fault_at_end(&mut read) {
        Some(fault) => Err(fault),
        None => Ok(read.forms),
    }
}
