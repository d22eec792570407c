//! Laws of the resets of a log. Each function is a fact for the crates above, which call it.
ghost use Rattle.log_import.specs.OneReset.{NoLogHasTwoAnswers};

use capture_reading::one_reading;

/// A law: for the reset with a number no log has two texts, nor two outcomes.
pub fn one_reset()
    ensures { NoLogHasTwoAnswers }
{
    one_reading();
}
