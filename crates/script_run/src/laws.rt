//! Laws of what scripts print, and of their reports as pictures and as data.
ghost use Rattle.script_run.specs.Answer.{ToldTextsArePrinted};
ghost use Rattle.script_run.specs.OneViewed.{ScriptsHaveOnePicture, PicturedScriptsAreTold, PictureFaultsAreTold, RunsHavePictures, ScriptsHaveOneReporting, ReportedScriptsAreTold, ReportingFaultsAreTold, RunsHaveReportings};

use cable_world::acts_keep;
use report_views::{reports_have_one_view, reports_have_views};
use script_bus::{each_config_comes_out, each_plan_comes_out, each_waiting_node_becomes_root};
use script_told::{
    reports_are_settled, script_worlds_are_reached, scripts_are_runs, scripts_tell_one_thing,
};
use settle::reports_are_read_back;
use topology_stack::one_tree;
use world_laws::wirings_are_slots;

/// A law: the text that a script tells is what its run prints, report by report and line by line, and
/// the lists of its bus are those of cables.
pub fn told_texts_are_printed()
    ensures { ToldTextsArePrinted }
{
    reports_are_settled();
    scripts_are_runs();
    each_plan_comes_out();
    each_config_comes_out();
    each_waiting_node_becomes_root();
    script_worlds_are_reached();
    wirings_are_slots();
}

/// A law: the reports of a script have one graph, of the last, and one sequence of lines. They have them
/// where the script has a text, and else its fault.
pub fn scripts_have_one_view()
    ensures picture { ScriptsHaveOnePicture }
    ensures picture_told { PicturedScriptsAreTold }
    ensures picture_fault { PictureFaultsAreTold }
    ensures picture_some { RunsHavePictures }
    ensures reporting { ScriptsHaveOneReporting }
    ensures reporting_told { ReportedScriptsAreTold }
    ensures reporting_fault { ReportingFaultsAreTold }
    ensures reporting_some { RunsHaveReportings }
{
    one_tree();
    acts_keep();
    reports_are_read_back();
    reports_have_one_view();
    reports_have_views();
    scripts_tell_one_thing();
    reports_are_settled();
}
