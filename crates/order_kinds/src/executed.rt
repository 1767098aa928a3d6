//! Order Executed: E.
ghost use Rattle.std.specs.Prelude.{refl};
ghost use Rattle.messages.specs.Layouts.{letter_of, length_of, layout_of};
ghost use Rattle.messages.specs.Types.{OrderExecuted as kind};
ghost use Rattle.messages.specs.Values.{executed_values};

use fields::field::Field;
use fields::numeral::{ID, SHARES, TIME};
use fields::reading::Reading;
use layout::fault::FieldFault;
use messages::kind::Kind;
use messages::message::Message;
use messages::record::OrderExecution;

pub struct OrderExecuted;

impl Kind for OrderExecuted {
    const LETTER: u8 = b'E';

    ghost LETTER = { letter_of kind };

    const LENGTH: usize = 39;

    ghost LENGTH = { length_of kind };

    type Record = OrderExecution;

    ghost row = { kind };

    ghost fields = { layout_of kind };

    ghost values = { executed_values };

    ghost lettered = { refl };

    ghost sized = { refl };

    ghost laid = { refl };

    fn message(executed: OrderExecution) -> Message {
        Message::OrderExecuted(executed)
    }

    fn read(line: &[u8]) -> Result<OrderExecution, FieldFault> {
        let (time, rest) = TIME.read(line, Self::at(0))?;
        let (_, rest) = Self::mark().read(rest, Self::at(8))?;
        let (order, rest) = ID.read(rest, Self::at(9))?;
        let (shares, rest) = SHARES.read(rest, Self::at(21))?;
        let (execution, _) = ID.read(rest, Self::at(27))?;
        Ok(OrderExecution {
            time,
            order,
            shares,
            execution,
        })
    }

    fn check(executed: &OrderExecution) -> Result<(), FieldFault> {
        TIME.check(&executed.time, Self::at(0))?;
        ID.check(&executed.order, Self::at(9))?;
        SHARES.check(&executed.shares, Self::at(21))?;
        ID.check(&executed.execution, Self::at(27))
    }

    fn put(executed: &OrderExecution, room: &mut [u8]) {
        TIME.put(room, 0, &executed.time);
        Self::mark().put(room, 8, &());
        ID.put(room, 9, &executed.order);
        SHARES.put(room, 21, &executed.shares);
        ID.put(room, 27, &executed.execution);
    }
}
