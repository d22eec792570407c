//! The election of the bus manager.
ghost use Rattle.std.specs.Prelude.{◌≡◌, ◌≢◌, ◌≤◌};
ghost use Rattle.resource_manager.specs.Register.{Values};
ghost use Rattle.bus_manager.specs.Election.{IsLockFor};

use resource_manager::{COMPARE_SWAP, Register, Registers};

/// The outcome of an attempt to become bus manager.
#[derive(Clone, Copy, Debug, PartialEq, Eq)]
pub enum Bid {
    /// The node is bus manager now.
    Won,
    /// The node with ID `old` is, or `old` is what else stands in BUS_MANAGER_ID.
    Lost { old: u8 },
}

/// The attempt of the node with ID `id`, 0 to 62, to become bus manager: a lock that puts its ID
/// into BUS_MANAGER_ID where that holds 0x3F, as it does from a bus reset on until a node has done so
/// (IEEE 1394-1995, 8.3.2.3.6).
///
/// `Lost` comes exactly where the register wasn't 0x3F; it names the value found, and nothing
/// changes.
pub fn attempt(regs: &mut Registers, id: u8) -> Bid
    requires { id ≤ 62 }
    ensures won { regs.old.bus_manager_id ≡ 0x3F → result ≡ Bid.Won }
    ensures lost { regs.old.bus_manager_id ≢ 0x3F → result ≡ Bid.Lost regs.old.bus_manager_id }
    ensures taken { regs.old.bus_manager_id ≡ 0x3F →
        regs.new ≡ record regs.old { bus_manager_id = id } }
    ensures kept { regs.old.bus_manager_id ≢ 0x3F → regs.new ≡ regs.old }
    // It is one access to the registers, whose answer is the reply to a lock.
    ensures lock { IsLockFor id regs.old regs.new result }
{
    let register = Register::BusManagerId;
    let nobody = register.initial();
    let reply = regs.lock(register.offset(), COMPARE_SWAP, nobody, u32::from(id));
    if reply.value == nobody {
        Bid::Won
    } else {
        Bid::Lost {
            old: regs.value(register) as u8,
        }
    }
}
