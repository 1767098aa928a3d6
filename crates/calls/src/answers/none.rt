// No store is open.
ghost use Rattle.std.specs.Prelude.{None};

use crate::answers::Answers;
use crate::call::Call;
use crate::reply::Reply;

#[derive(Drop)]
pub struct NoStore;

impl Answers for NoStore {
    ghost stored = { λ _. None };

    ghost ready = { λ _. Unit {0} };

    fn answer(&mut self, _call: Call) -> Reply {
        Reply::NoneOpen
    }
}
