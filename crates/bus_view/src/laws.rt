//! Laws of views.
ghost use Rattle.bus_view.specs.Captured.{CapturesAreOfReports, ListsFit};
ghost use Rattle.bus_view.specs.Json.{FaultsTellTheirLines};
ghost use Rattle.bus_view.specs.Summed.{MakeSumsUpTheScript};
ghost use Rattle.bus_view.specs.OneAnswer.{EachInputHasAView, NoInputHasTwoViews};

use cable_world::acts_keep;
use capture_reading::one_reading;
use nosy_dump::dumps_have_one_text;
use reset_log::logs_have_one_text;
use script_bus::each_script_has_a_run;
use script_made::made_scripts_have_no_fault;
use script_run::scripts_have_one_view;
use script_told::{reported_trees_are_managed, reports_are_settled, scripts_tell_one_thing};
use script_trace::{scripts_have_one_dump, scripts_have_one_trace};
use topology_stack::one_tree;

/// A law: all words and bytes have one answer, one status and one text.
pub fn one_view()
    ensures some { EachInputHasAView }
    ensures one { NoInputHasTwoViews }
{
    one_reading();
    scripts_tell_one_thing();
    scripts_have_one_trace();
    scripts_have_one_dump();
    scripts_have_one_view();
    each_script_has_a_run();
    logs_have_one_text();
    dumps_have_one_text();
}

/// A law: what `busconf run` answers to the script of `script N SEED` is a text, and `busconf make N
/// SEED` writes its summary.
pub fn make_sums_up_the_script()
    ensures { MakeSumsUpTheScript }
{
    made_scripts_have_no_fault();
}

/// A law: what `json` writes of a refused capture has the pair, the kind and the counts that stand in the
/// line of `busconf read`.
pub fn faults_tell_their_lines()
    ensures { FaultsTellTheirLines }
{}

/// A law: what `capture NAME` writes at status 0 is read by `busconf read` as the tree that stands in the
/// script's last report, names aside. The script's last command prints that report.
pub fn captures_are_of_reports()
    ensures fit { ListsFit }
    ensures read { CapturesAreOfReports }
{
    one_reading();
    one_tree();
    acts_keep();
    reported_trees_are_managed();
    reports_are_settled();
}
