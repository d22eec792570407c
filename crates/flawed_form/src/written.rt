//! What the form writes.
ghost use Rattle.std.specs.Prelude.{◌≡◌, ◌≢◌, ◌↔◌, ◌<◌, ◌≤◌, List, ℕ, Err, OnOk};
ghost use Rattle.std.specs.Io.KnownBytes.{Appends};
ghost use Rattle.io_edges.specs.Faults.{Rose};
ghost use Rattle.flawed_capture.specs.Flaw.{HasFlaw, least_nodes};
ghost use Rattle.flawed_capture.specs.SeededFlaw.{IsOfSeed};
ghost use Rattle.flawed_capture.specs.Spoilt.{IsOfBus};

use crate::form::FlawedForm;
use flawed_capture::{FlawStop, flawed_capture};
use io_edges::{Sink, write_whole};
use std::alloc::Global;

/// Why the capture wasn't written.
#[derive(Debug, Drop)]
pub enum FlawedStop {
    /// No capture was made; nothing was written.
    Flaw(FlawStop),
    /// The sink failed; the first bytes were written, or none.
    WriteFault,
}

/// Writes the capture of a made bus with a flaw, as the form says.
pub fn write_flawed<K: Sink>(
    alloc: Global,
    form: FlawedForm,
    sink: &mut K,
) -> Result<(), FlawedStop>
    requires { form.nodes ≤ 63 }
    // The bytes have a fault of the kind by the standard, and come of the bus that the seed makes of so many
    // nodes, by the first change that gives the fault.
    ensures written { OnOk result ((bytes : List ℕ) × HasFlaw form.standard bytes form.flaw
        × IsOfBus form.standard form.nodes form.flaw bytes
        × IsOfSeed form.standard form.nodes form.flaw form.seed bytes
        × Appends (K.written sink.old) (K.written sink.new) bytes) }
    ensures few { (result ≡ Err (FlawedStop.Flaw (FlawStop.TooFewNodes (least_nodes form.flaw))))
        ↔ (form.nodes < least_nodes form.flaw) }
    ensures no_bus { result ≡ Err (FlawedStop.Flaw FlawStop.NoBus) → form.nodes ≡ 0 }
    ensures found { result ≢ Err (FlawedStop.Flaw FlawStop.NotFound) }
    ensures write_fault { result ≡ Err FlawedStop.WriteFault →
        Rose (K.faults sink.old) (K.faults sink.new) }
    ensures unwritten { (stop : FlawStop) → result ≡ Err (FlawedStop.Flaw stop) →
        sink.new ≡ sink.old }
{
    match flawed_capture(alloc, form.standard, form.flaw, form.nodes, form.seed) {
        Err(stop) => Err(FlawedStop::Flaw(stop)),
        Ok(bytes) => match write_whole(sink, &bytes) {
            Ok(()) => Ok(()),
            Err(_) => Err(FlawedStop::WriteFault),
        },
    }
}
