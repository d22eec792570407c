//! Laws of answers.
ghost use Rattle.bus_cli.specs.OneAnswer.{EachInputHasAnAnswer, NoInputHasTwoAnswers};

use capture_reading::one_reading;
use config_rom::{one_list, one_rom, roms_have_texts};
use script_advice::{advices_leave_no_loop, scripts_have_one_advice};
use script_bus::{each_script_has_a_run, each_script_has_an_advice};
use script_made::made_scripts_have_no_fault;
use script_run::told_texts_are_printed;
use script_text::maps_have_texts;
use script_told::scripts_tell_one_thing;

/// A law: all words and bytes have one answer, one status and one text.
pub fn one_answer()
    ensures some { EachInputHasAnAnswer }
    ensures one { NoInputHasTwoAnswers }
{
    one_reading();
    maps_have_texts();
    one_rom();
    one_list();
    roms_have_texts();
    scripts_tell_one_thing();
    each_script_has_a_run();
    told_texts_are_printed();
    made_scripts_have_no_fault();
    scripts_have_one_advice();
    each_script_has_an_advice();
    advices_leave_no_loop();
}
