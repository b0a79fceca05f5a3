ghost use Rattle.std.specs.Prelude.{◌≡◌};
ghost use Rattle.fx_spec.specs.Refusals.{refusal_number};

use fx_expr::ExprFault;
use fx_store::Path;

/// Why a command is refused.
#[derive(Drop)]
pub enum Refusal {
    /// There is no such step from the place.
    NoStep,
    /// The set has no such element.
    NoElement,
    /// The address leads to no place any more.
    NoPlace,
    /// What is asked for is not there.
    Lacks,
    /// The description has another form or shape.
    WrongForm,
    /// What stands at this path is in the way.
    Blocked(Path),
    TooDeep,
    BadName,
    /// The form has no empty default.
    NoDefault,
    /// The command's expression has no value.
    Expr(ExprFault),
    /// Nothing stands there that could be removed.
    Absent,
    /// Something stands there already.
    Exists,
    /// There are 64 calls around the call already.
    TooUnfolded,
}

impl Refusal {
    /// The refusal's number, from 1.
    pub fn number(&self) -> u32
        ensures { result ≡ refusal_number self.now }
    {
        match self {
            Refusal::NoStep => 1,
            Refusal::NoElement => 2,
            Refusal::NoPlace => 3,
            Refusal::Lacks => 4,
            Refusal::WrongForm => 5,
            Refusal::Blocked(_) => 6,
            Refusal::TooDeep => 7,
            Refusal::BadName => 8,
            Refusal::NoDefault => 9,
            Refusal::Expr(_) => 10,
            Refusal::Absent => 11,
            Refusal::Exists => 12,
            Refusal::TooUnfolded => 13,
        }
    }
}

/// How a transaction ends.
#[derive(Drop)]
pub enum End {
    Done,
    /// At the first refused command outside a `try`, by its number from 0 in the order of the text.
    Stopped { command: u32, refusal: Refusal },
    Aborted,
}
