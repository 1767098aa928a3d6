//! A message of any kind.
use crate::record::{AddOrder, Break, Cancel, ClearSymbol, LongAdd, OrderExecution, Trade};

#[derive(Clone, Copy, PartialEq, Eq, Debug)]
pub enum Message {
    SymbolClear(ClearSymbol),
    AddShort(AddOrder),
    AddLong(LongAdd),
    OrderExecuted(OrderExecution),
    OrderCancel(Cancel),
    TradeShort(Trade),
    TradeLong(Trade),
    TradeBreak(Break),
}
