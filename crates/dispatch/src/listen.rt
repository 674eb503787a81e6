// What a call hears.
ghost use Rattle.call.specs.Effects.{Hearing, listening};
ghost use Rattle.dispatch.specs.Checks.{PartyIn};
ghost use Rattle.dispatch.specs.Lent.{lent};

use super::rows::row;
use super::tables::LentTables;
use call::{Call, GroupCall};
use carriers::Carrier;
use messages::{Message, anchor_address, cell_address, mobile_listener, station_address};

// A call that listens nowhere hears nothing, and leaves both carriers alone.
pub(crate) fn listen<A: Carrier, W: Carrier>(
    tables: &LentTables<'_>,
    call: &Call,
    air: &mut A,
    wire: &mut W,
) -> Option<Message>
    requires { PartyIn tables.now call.now }
    ensures { (c : GroupCall) → Hearing A.Carrier.says W.Carrier.says A.Carrier.hears W.Carrier.hears (listening (lent c tables.now) call.now) air.old wire.old result air.new wire.new }
{
    match *call {
        Call::MobileHears { mobile, .. } => {
            let station = row(tables.mobiles, mobile).station;
            air.hear(cell_address(station), mobile_listener(mobile as u8))
        }
        Call::StationHearsAir { station, .. } => {
            let address = station_address(station as u8);
            air.hear(address, address)
        }
        Call::StationHearsWire { station, .. } => {
            let address = station_address(station as u8);
            wire.hear(address, address)
        }
        Call::AnchorHears { .. } => wire.hear(anchor_address(), anchor_address()),
        Call::Ask { .. }
        | Call::Finish { .. }
        | Call::MobileTimer { .. }
        | Call::StationTimer { .. }
        | Call::RadioLoss { .. }
        | Call::Release { .. } => None,
    }
}
