//! The code of a program.

ghost use Rattle.std.specs.Prelude.{◌≡◌, ◌≤◌, ◌<◌, [], length, IfOk};
ghost use Rattle.effect_term.specs.ExpansionSize.{expansion_size_of};
ghost use Rattle.effect_term.specs.Masks.{masks_of};
ghost use Rattle.derived_ops.specs.Codes.{IsCode};
ghost use Rattle.derived_ops.specs.Counts.{words, masks};
ghost use Rattle.derived_ops.specs.Expansion.{code_of};
ghost use Rattle.derived_ops.specs.Levels.{Levelled};
ghost use Rattle.derived_ops.specs.Naming.{Given, Named};
ghost use Rattle.derived_ops.specs.Reading.{source_of};
ghost use Rattle.derived_ops.specs.Words.{tree_of};

use crate::core_word::CoreWord;
use crate::expansion::Expansion;
use effect_term::Program;
use std::alloc::{AllocError, Global};
use std::marker::Model;
use std::sync::Arc;

/// The code of a program: a term of core words that is the expansion of a program, stored word by word. Contracts see
/// it as that term.
#[derive(Drop)]
pub struct Code {
    words: Arc<Vec<CoreWord>>,
}

impl Model for Code {
    ghost use Rattle.std.specs.Prelude.{◌<◌, length};
    ghost use Rattle.derived_ops.specs.Tree.{Tree};
    ghost use Rattle.derived_ops.specs.Stored.{tree_code};
    ghost use Rattle.derived_ops.specs.Words.{tree_of};
    ghost use Rattle.derived_ops.specs.Codes.{IsCode};

    ghost Value = { Tree };

    ghost coded = { tree_code };

    ghost view = { λ c. tree_of c.words.value.items };

    ghost invariant = { λ c. IsCode (tree_of c.words.value.items) × (length c.words.value.items < 2000000) };
}

impl Code {
    /// The words of this code, fewer than 2,000,000. The slot of each binder in its term is the number of binders
    /// around it. The term has at most 1,000,000 words and marks, where a sequence counts as one. The term names a
    /// fiber, a ref or a deferred only by the slot of a binder of that kind.
    #[tactic(auto, using(crate::proofs::Levels::levelled_code, crate::proofs::Coded::named_code, crate::proofs::Counts::small_code))]
    pub fn words(&self) -> &[CoreWord]
        ensures term { tree_of result.now ≡ self.now }
        ensures code { IsCode self.now }
        ensures levelled { Levelled 0 self.now }
        ensures named { (given : Given) → Named given [] self.now }
        ensures small { words self.now ≤ 1000000 }
        ensures few { length result.now < 2000000 }
    {
        self.words.as_slice()
    }

    /// The same words, shared with this code, so that they are in memory once. Allocates nothing; returns `AllocError`
    /// if they are shared too often.
    pub fn shared_words(&self) -> Result<Arc<Vec<CoreWord>>, AllocError>
        ensures term { IfOk result (λ words. tree_of words.value.items ≡ self.now) }
        ensures code { IfOk result (λ _. IsCode self.now) }
        ensures few { IfOk result (λ words. length words.value.items < 2000000) }
    {
        Arc::try_clone(&self.words)
    }
}

/// The code of a program, or `AllocError` if memory is refused.
///
/// A core word keeps its place, with its parts expanded; any other word is replaced by its expansion. A binder's slot
/// is the number of binders around it. The code has as many words and masks as were counted on the program.
#[tactic(auto, using(crate::proofs::Counts::words_code, crate::proofs::Counts::masks_code))]
pub fn expand(alloc: Global, program: &Program) -> Result<Code, AllocError>
    ensures code { IfOk result (λ code. code ≡ code_of (source_of program.now)) }
    ensures words { IfOk result (λ code. words code ≡ expansion_size_of program.now) }
    ensures masks { IfOk result (λ code. masks code ≡ masks_of program.now) }
{
    let mut expansion = Expansion::new(alloc);
    expansion.part(program.term(), 0)?;
    let words = expansion.into_words();
    Ok(Code {
        words: Arc::new(alloc, words)?,
    })
}
