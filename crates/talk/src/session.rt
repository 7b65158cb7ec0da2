//! A session.
ghost use Rattle.std.specs.Prelude.{◌≡◌, [], take};
ghost use Rattle.desk_model.specs.Histories.{own};
ghost use Rattle.talk.specs.Served.{wire_of};
ghost use Rattle.talk.specs.Talked.{Talked, IfUnkept};

use crate::end::End;
use crate::link::starve;
use crate::served::Served;
use crate::step::step;
use cm_base::user::Users;
use desk_model::Desk;
use http_grammar::{
    fault_holds_its_head, first_is_kept, held_head_has_bytes, held_head_is_kept, held_head_is_one,
    request_lies_within, whole_request_holds_its_head,
};
use http_wire::Buffer;
use outside::{Gate, Link};
use std::alloc::Global;

/// Serves one session of a connection, to its end: each request that comes in is answered in its turn, and the last reply says that it closes.
/// The link is not finished here.
pub fn talk<D: Desk, L: Link, G: Gate>(
    alloc: Global,
    leave: &mut D::Leave,
    desk: &mut D,
    pass: &mut D::Pass,
    users: &Users,
    link: &mut L,
    gate: &G,
) -> End
where
    D::Kind: Served,
    requires is_of { D.is_of desk.old pass.old }
    requires none_made { (D.known pass.old).own ≡ [] }
    requires none_before { own 0 (D.known pass.old).session
        (take (D.known pass.old).base (D.known pass.old).seen) ≡ [] }
    ensures is_of { D.is_of desk.new pass.new }
    ensures aside { D.aside desk.new ≡ D.aside desk.old }
    ensures place { D.place pass.new ≡ D.place pass.old }
    ensures talked { Talked (record {
      next = D.Kind.next;
      answer = D.Kind.answer;
      number = D.Kind.number;
      call = D.Kind.call;
      wire = wire_of D.Kind.user D.Kind.least D.Kind.closes;
    }) users.now
        (D.known pass.old) (D.words desk.old) (L.Source.told link.old) (L.Sink.told link.old) (D.known pass.new)
        (D.sure pass.new) (D.words desk.new) (L.Source.told link.new) (L.Sink.told link.new) result }
    ensures failed { IfUnkept result (D.failed pass.new) }
    ensures stands_for { L.stands_for link.new ≡ L.stands_for link.old }
{
    first_is_kept();
    request_lies_within();
    held_head_is_one();
    held_head_is_kept();
    held_head_has_bytes();
    whole_request_holds_its_head();
    fault_holds_its_head();
    let Ok(mut buffer) = Buffer::new(alloc) else {
        starve(link);
        return End::Starved;
    };
    let mut calls = 0;
    let mut count = 0;
    'steps: loop {
        match step(
            alloc,
            leave,
            desk,
            pass,
            users,
            link,
            gate,
            &mut buffer,
            &mut calls,
            &mut count,
        ) {
            Some(end) => return end,
            None => {}
        }
    }
}
