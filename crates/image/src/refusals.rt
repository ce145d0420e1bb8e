// A test that can refuse. Tests in a row are joined by `?`; what they say together follows by the ruleset `said` of proofs/Said.antt.
ghost use Rattle.std.specs.Prelude.{◌≡◌, [], ◌∷◌};
ghost use Rattle.scope.specs.Checks.{test, first_failing};
ghost use Rattle.image.specs.Said.{fault_number, checked_of};

use scope::{Fault, Refusal};

#[tactic(auto, unfolding(scope::specs::Checks::first_failing, moore::specs::Objects::choose))]
pub fn require(good: bool, fault: Fault, place: u32) -> Result<(), Refusal>
    ensures { checked_of result ≡ first_failing (test (fault_number fault) place good ∷ []) }
{
    if good {
        Ok(())
    } else {
        Err(Refusal { fault, place })
    }
}

// The number of a fault in document 01's table of answers.
pub fn number(fault: Fault) -> u32
    ensures { result ≡ fault_number fault }
{
    fault as u32
}
