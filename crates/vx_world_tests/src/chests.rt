//! Ann's chest.
use crate::machines::at;
use std::process::Abort;
use std::sync::Wait;
use vx_cells::Stack;
use vx_decide::Rule;
use vx_keeper::Places;
use vx_region::RegionNo;
use vx_sector::{Cmd, Refusal, Reply};
use vx_step::NoGate;
use vx_world::{Pass, Seats, World};

/// It stands at x 5 in the row of this z.
pub const CHEST: i32 = 14;

const ANNS: Rule = Rule::Member { at: RegionNo(2) };

/// Ann puts into her chest what there is room for.
pub fn fill<A: Places, B: Seats, R: Wait + Abort>(
    rt: &R,
    world: &World<A, B>,
    ann: &mut Pass<A, B>,
) {
    for (cmd, due) in [
        (put_in(0, 7, 64), Ok(Reply::Done(ANNS))),
        (put_in(0, 7, 1), Err(Refusal::BadCount)),
        (put_in(27, 7, 1), Err(Refusal::NoSlot)),
        (put_in(0, 8, 1), Err(Refusal::OtherItem)),
        (Cmd::Break(at(5, CHEST)), Err(Refusal::NotEmpty)),
    ] {
        answers(rt, world, ann, cmd, due);
    }
}

/// Nobody but ann looks into the chest, and it breaks once she has taken all out.
pub fn empty<A: Places, B: Seats, R: Wait + Abort>(
    rt: &R,
    world: &World<A, B>,
    ann: &mut Pass<A, B>,
    bob: &mut Pass<A, B>,
) {
    holds_one_stack(rt, world, ann);
    let open = Cmd::OpenChest(at(5, CHEST));
    answers(rt, world, bob, open, Err(Refusal::Denied(ANNS)));
    let take = Cmd::Take {
        at: at(5, CHEST),
        slot: 0,
        count: 64,
    };
    answers(rt, world, ann, take, Ok(Reply::Done(ANNS)));
    answers(
        rt,
        world,
        ann,
        Cmd::Break(at(5, CHEST)),
        Ok(Reply::Done(ANNS)),
    );
}

fn put_in(slot: u8, item: u16, count: u8) -> Cmd {
    Cmd::Put {
        at: at(5, CHEST),
        slot,
        item,
        count,
    }
}

fn answers<A: Places, B: Seats, R: Wait + Abort>(
    rt: &R,
    world: &World<A, B>,
    pass: &mut Pass<A, B>,
    cmd: Cmd,
    due: Result<Reply, Refusal>,
) {
    assert!(rt; world.submit(rt, pass, cmd, &NoGate) == due);
}

fn holds_one_stack<A: Places, B: Seats, R: Wait + Abort>(
    rt: &R,
    world: &World<A, B>,
    pass: &mut Pass<A, B>,
) {
    let Ok(Reply::Opened(rule, contents)) = world.submit(
        rt,
        pass,
        Cmd::OpenChest(at(5, CHEST)),
        &NoGate,
    ) else {
        panic!(rt; "not opened");
    };
    assert!(rt; rule == ANNS);
    let stack = Stack { item: 7, count: 64 };
    assert!(rt; contents.slots()[0] == Some(stack));
    assert!(rt; contents.slots()[1..].iter().all(|slot| slot.is_none()));
}
