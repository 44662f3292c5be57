//! Texts of random programs.

use rand_core::{Rng, SeedableRng};
use rand_xoshiro::Xoshiro256PlusPlus;
use std::alloc::{AllocError, Global};

// The kind of a name.
#[derive(Clone, Copy)]
enum Kind {
    Fiber,
    Ref,
    Deferred,
    Value,
    Poll,
}

// A part of a form.
#[derive(Clone, Copy)]
enum Part {
    Text(&'static str),
    // The name of a new binder.
    Bind(Kind),
    // A name that is bound.
    Use(Kind),
    // A small number, or the name of a value.
    Value,
    Term,
    // A term in which one more name of this kind is bound.
    Under(Kind),
}

// A form, and the kind of a name that must be bound where the form is used, if it needs one.
struct Form {
    needs: Option<Kind>,
    parts: &'static [Part],
}

const LEAVES: &[Form] = &[
    Form {
        needs: None,
        parts: &[Part::Text("(say "), Part::Value, Part::Text(")")],
    },
    Form {
        needs: None,
        parts: &[Part::Text("(cede)")],
    },
    Form {
        needs: None,
        parts: &[Part::Text("(raise "), Part::Value, Part::Text(")")],
    },
    Form {
        needs: None,
        parts: &[Part::Text("(canceled)")],
    },
    Form {
        needs: Some(Kind::Fiber),
        parts: &[
            Part::Text("(cancel "),
            Part::Use(Kind::Fiber),
            Part::Text(")"),
        ],
    },
    Form {
        needs: Some(Kind::Ref),
        parts: &[Part::Text("(get "), Part::Use(Kind::Ref), Part::Text(")")],
    },
    Form {
        needs: Some(Kind::Ref),
        parts: &[
            Part::Text("(set "),
            Part::Use(Kind::Ref),
            Part::Text(" "),
            Part::Value,
            Part::Text(")"),
        ],
    },
    Form {
        needs: Some(Kind::Ref),
        parts: &[
            Part::Text("(modify "),
            Part::Use(Kind::Ref),
            Part::Text(" "),
            Part::Value,
            Part::Text(")"),
        ],
    },
    Form {
        needs: Some(Kind::Deferred),
        parts: &[
            Part::Text("(complete "),
            Part::Use(Kind::Deferred),
            Part::Text(" "),
            Part::Value,
            Part::Text(")"),
        ],
    },
    Form {
        needs: Some(Kind::Deferred),
        parts: &[
            Part::Text("(await "),
            Part::Use(Kind::Deferred),
            Part::Text(")"),
        ],
    },
];

const FORMS: &[Form] = &[
    Form {
        needs: None,
        parts: &[
            Part::Text("(seq "),
            Part::Term,
            Part::Text(" "),
            Part::Term,
            Part::Text(")"),
        ],
    },
    Form {
        needs: None,
        parts: &[
            Part::Text("(let "),
            Part::Bind(Kind::Value),
            Part::Text(" "),
            Part::Term,
            Part::Text(" "),
            Part::Under(Kind::Value),
            Part::Text(")"),
        ],
    },
    Form {
        needs: None,
        parts: &[
            Part::Text("(start "),
            Part::Bind(Kind::Fiber),
            Part::Text(" "),
            Part::Term,
            Part::Text(" "),
            Part::Under(Kind::Fiber),
            Part::Text(")"),
        ],
    },
    Form {
        needs: None,
        parts: &[
            Part::Text("(start "),
            Part::Bind(Kind::Fiber),
            Part::Text(" "),
            Part::Term,
            Part::Text(" "),
            Part::Under(Kind::Fiber),
            Part::Text(")"),
        ],
    },
    Form {
        needs: Some(Kind::Fiber),
        parts: &[
            Part::Text("(join "),
            Part::Use(Kind::Fiber),
            Part::Text(" "),
            Part::Bind(Kind::Value),
            Part::Text(" "),
            Part::Under(Kind::Value),
            Part::Text(" e (pure 8) (pure 9))"),
        ],
    },
    Form {
        needs: None,
        parts: &[
            Part::Text("(ref "),
            Part::Bind(Kind::Ref),
            Part::Text(" "),
            Part::Value,
            Part::Text(" "),
            Part::Under(Kind::Ref),
            Part::Text(")"),
        ],
    },
    Form {
        needs: None,
        parts: &[
            Part::Text("(deferred "),
            Part::Bind(Kind::Deferred),
            Part::Text(" "),
            Part::Under(Kind::Deferred),
            Part::Text(")"),
        ],
    },
    Form {
        needs: None,
        parts: &[
            Part::Text("(uncancelable "),
            Part::Bind(Kind::Poll),
            Part::Text(" "),
            Part::Under(Kind::Poll),
            Part::Text(")"),
        ],
    },
    Form {
        needs: Some(Kind::Poll),
        parts: &[
            Part::Text("(poll "),
            Part::Use(Kind::Poll),
            Part::Text(" "),
            Part::Term,
            Part::Text(")"),
        ],
    },
    Form {
        needs: None,
        parts: &[
            Part::Text("(oncancel "),
            Part::Term,
            Part::Text(" "),
            Part::Term,
            Part::Text(")"),
        ],
    },
    Form {
        needs: None,
        parts: &[
            Part::Text("(handle "),
            Part::Term,
            Part::Text(" "),
            Part::Bind(Kind::Value),
            Part::Text(" "),
            Part::Under(Kind::Value),
            Part::Text(")"),
        ],
    },
    Form {
        needs: None,
        parts: &[
            Part::Text("(race "),
            Part::Term,
            Part::Text(" "),
            Part::Term,
            Part::Text(")"),
        ],
    },
    Form {
        needs: None,
        parts: &[
            Part::Text("(bracket "),
            Part::Bind(Kind::Value),
            Part::Text(" "),
            Part::Term,
            Part::Text(" "),
            Part::Under(Kind::Value),
            Part::Text(" "),
            Part::Under(Kind::Value),
            Part::Text(")"),
        ],
    },
    Form {
        needs: None,
        parts: &[Part::Text("(repeat 2 "), Part::Term, Part::Text(")")],
    },
    Form {
        needs: None,
        parts: &[
            Part::Text("(forever (seq (cede) "),
            Part::Term,
            Part::Text("))"),
        ],
    },
    Form {
        needs: None,
        parts: &[
            Part::Text("(if0 "),
            Part::Value,
            Part::Text(" "),
            Part::Term,
            Part::Text(" "),
            Part::Term,
            Part::Text(")"),
        ],
    },
];

// The number of bound names of each kind.
#[derive(Clone, Copy)]
struct Scope {
    fibers: u32,
    refs: u32,
    deferreds: u32,
    values: u32,
    polls: u32,
}

const EMPTY: Scope = Scope {
    fibers: 0,
    refs: 0,
    deferreds: 0,
    values: 0,
    polls: 0,
};

// The number of bound names of this kind.
fn bound(scope: Scope, kind: Kind) -> u32 {
    match kind {
        Kind::Fiber => scope.fibers,
        Kind::Ref => scope.refs,
        Kind::Deferred => scope.deferreds,
        Kind::Value => scope.values,
        Kind::Poll => scope.polls,
    }
}

// The scope with one more name of this kind.
fn under(scope: Scope, kind: Kind) -> Scope {
    let mut scope = scope;
    match kind {
        Kind::Fiber => scope.fibers = scope.fibers.saturating_add(1),
        Kind::Ref => scope.refs = scope.refs.saturating_add(1),
        Kind::Deferred => scope.deferreds = scope.deferreds.saturating_add(1),
        Kind::Value => scope.values = scope.values.saturating_add(1),
        Kind::Poll => scope.polls = scope.polls.saturating_add(1),
    }
    scope
}

// The letter that names of this kind begin with.
fn letter(kind: Kind) -> &'static str {
    match kind {
        Kind::Fiber => "f",
        Kind::Ref => "r",
        Kind::Deferred => "d",
        Kind::Value => "v",
        Kind::Poll => "p",
    }
}

// A random number below the bound, 0 if the bound is 0.
fn below(draws: &mut Xoshiro256PlusPlus, bound: u32) -> u32 {
    if bound == 0 {
        return 0;
    }
    draws.next_u32() % bound
}

// A random form for a term that nests at most `depth` deep.
fn drawn_form(draws: &mut Xoshiro256PlusPlus, depth: u32, scope: Scope) -> &'static Form {
    let forms = if depth == 0 || below(draws, 6) == 0 {
        LEAVES
    } else {
        FORMS
    };
    for _ in 0..16 {
        let found = &forms[below(draws, forms.len() as u32) as usize % forms.len()];
        let fits = match found.needs {
            Some(kind) => bound(scope, kind) > 0,
            None => true,
        };
        if fits {
            return found;
        }
    }
    &LEAVES[1]
}

// Appends a name.
fn push_name(text: &mut String, kind: Kind, number: u32) -> Result<(), AllocError> {
    let mut digits = itoa::Buffer::new();
    text.push_str(letter(kind))?;
    text.push_str(digits.format(number))
}

// Appends a value: a bound name, or a number from 0 to 2.
fn push_value(
    text: &mut String,
    draws: &mut Xoshiro256PlusPlus,
    scope: Scope,
) -> Result<(), AllocError> {
    if scope.values > 0 && below(draws, 2) == 0 {
        return push_name(text, Kind::Value, below(draws, scope.values));
    }
    let mut digits = itoa::Buffer::new();
    text.push_str(digits.format(below(draws, 3)))
}

// A part that is still to be written, how deep its terms can nest, and which names are bound in it.
#[derive(Clone, Copy)]
struct Piece {
    part: Part,
    depth: u32,
    scope: Scope,
}

// Pushes the parts of a form in reverse order, so that the first one is on top.
fn push_parts(
    pieces: &mut Vec<Piece>,
    form: &Form,
    depth: u32,
    scope: Scope,
) -> Result<(), AllocError> {
    for part in form.parts.iter().rev() {
        pieces.push(Piece {
            part: *part,
            depth,
            scope,
        })?;
    }
    Ok(())
}

/// The text of a random program, made from a seed, whose forms nest at most `depth` deep. Only a text that is cut off
/// after 2000 parts is refused.
pub fn random_text(alloc: Global, seed: u64, depth: u32) -> Result<String, AllocError> {
    let mut draws = Xoshiro256PlusPlus::seed_from_u64(seed);
    let mut text = String::new(alloc);
    let mut pieces = Vec::new(alloc);
    pieces.push(Piece {
        part: Part::Term,
        depth,
        scope: EMPTY,
    })?;
    for _ in 0..2000 {
        let Some(Piece { part, depth, scope }) = pieces.pop() else {
            break;
        };
        match part {
            Part::Text(it) => text.push_str(it)?,
            Part::Bind(kind) => push_name(&mut text, kind, bound(scope, kind))?,
            Part::Use(kind) => push_name(&mut text, kind, below(&mut draws, bound(scope, kind)))?,
            Part::Value => push_value(&mut text, &mut draws, scope)?,
            Part::Term => push_parts(
                &mut pieces,
                drawn_form(&mut draws, depth, scope),
                depth.saturating_sub(1),
                scope,
            )?,
            Part::Under(kind) => {
                let scope = under(scope, kind);
                push_parts(
                    &mut pieces,
                    drawn_form(&mut draws, depth, scope),
                    depth.saturating_sub(1),
                    scope,
                )?;
            }
        }
    }
    Ok(text)
}
