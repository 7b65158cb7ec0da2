//! The laws of the definitions, as public functions with empty bodies.
ghost use Rattle.std.specs.Prelude.{◌≡◌, ℕ, List};
ghost use Rattle.cm_base.specs.declared.user.User.{User};
ghost use Rattle.talk.specs.Served.{wire_of};
ghost use Rattle.load_sessions.specs.Sessions.{Made};

use talk::{Served, alone_is_one};

/// The sessions of a load make one state.
pub fn made_is_one<M: Served>()
    ensures { (users : List User) (opening : M.State) (n k : ℕ) (s t : M.State)
        → Made (record {
          next = M.next;
          answer = M.answer;
          number = M.number;
          call = M.call;
          wire = wire_of M.user M.least M.closes;
        }) users opening n k s
        → Made (record {
          next = M.next;
          answer = M.answer;
          number = M.number;
          call = M.call;
          wire = wire_of M.user M.least M.closes;
        }) users opening n k t
        → s ≡ t }
{
    alone_is_one::<M>();
}
