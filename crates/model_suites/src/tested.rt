//! The result of a model that is tested.

ghost use Rattle.std.specs.Prelude.{◌≡◌};
ghost use Rattle.claim_verdicts.specs.declared.judging.Verdict.TheVariants.{Undecided};
ghost use Rattle.model_runs.specs.Verdicts.{worst};

use model_reports::Unexplored;
use model_runs::ModelResult;
use model_terms::SourceFault;

/// The result of a model that is tested.
#[derive(Drop)]
pub struct Tested {
    /// The number of the model.
    pub index: usize,
    /// Its result.
    pub became: Became,
}

/// The result of a model.
#[derive(Drop)]
pub enum Became {
    /// The model is only listed.
    Listed,
    /// The term of the model was refused.
    Refused(SourceFault),
    /// The model was explored.
    Explored(Explored),
    /// The model wasn't explored, or not to an end that has a result.
    Undecided(UndecidedModel),
}

/// The result of a model that has none of a search: each of its claims is undecided.
#[derive(Drop)]
pub struct UndecidedModel {
    /// Its claims.
    pub result: ModelResult,
    /// The number of milliseconds that its search took.
    pub milliseconds: u64,
    /// Why there is no result of a search.
    pub why: Unexplored,
    pub ghost right: { result.verdict ≡ Undecided },
}

/// The result of a model that was explored. Its verdict is the worst of its claims' verdicts.
#[derive(Drop)]
pub struct Explored {
    /// Its verdict, its claims and its searches.
    pub result: ModelResult,
    /// The number of milliseconds that the exploration took.
    pub milliseconds: u64,
    pub ghost right: { result.verdict ≡ worst result.claims.items },
}
