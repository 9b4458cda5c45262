ghost use Rattle.std.specs.Prelude.{◌≡◌, []};
ghost use Rattle.ossl_turn.specs.Passes.{CameFrom};

use super::callers::{add_at_once, dismiss, hire};
use super::counter::{Add, Counter};
use fails_once::FailsOnce;
use ossl_turn::{Object, Pass, ShareRefused, Shared};
use std::alloc::Global;
use std::process::Abort;
use std::test::Fail;
use std::thread::join_mut;

mod fails_once;

// The object shared, or the end of the test.
fn opened<O: Object + Drop, R: Abort>(alloc: Global, rt: &R, object: O) -> (Shared<O>, Pass<O>)
    requires { O.history object ≡ [] }
    ensures { CameFrom result.0 result.1 × (result.1.number ≡ 0) × (result.1.made ≡ 0) }
{
    match Shared::open(alloc, object) {
        Ok(opened) => opened,
        Err(ShareRefused { object: _ }) => panic!(rt; "no memory"),
    }
}

#[test]
fn two_threads_take_turns(rt: HostRuntime) -> Result<(), Fail> {
    let alloc = rt.alloc();
    let mut passes = Vec::with_capacity(alloc, 3).expect(&rt, "no memory");
    let (shared, mut first) = opened(alloc, &rt, Counter::new(alloc));
    let Ok(mut one) = shared.split(&mut first) else {
        unreachable!()
    };
    let Ok(mut two) = shared.split(&mut first) else {
        unreachable!()
    };
    assert_eq!(rt; (first.number(), first.made()), (0, 2));
    assert_eq!(rt; (one.number(), two.number(), two.made()), (1, 2, 0));
    let (five, seven) = join_mut(
        &rt,
        &mut || shared.call(&rt, &mut one, &Add(5)),
        &mut || shared.call(&rt, &mut two, &Add(7)),
    );
    passes.push_reserved(one);
    passes.push_reserved(two);
    let counter = shared.close_all(first, passes);
    let entries = counter.entries();
    assert_eq!(rt; entries.len(), 2);
    if entries[0].caller == 1 {
        assert_eq!(rt; (entries[0].call, entries[0].reply), (Add(5), 5));
        assert_eq!(rt;
            (entries[1].caller, entries[1].call, entries[1].reply),
            (2, Add(7), 12)
        );
        assert_eq!(rt; (five, seven), (Ok(5), Ok(12)));
    } else {
        assert_eq!(rt;
            (entries[0].caller, entries[0].call, entries[0].reply),
            (2, Add(7), 7)
        );
        assert_eq!(rt;
            (entries[1].caller, entries[1].call, entries[1].reply),
            (1, Add(5), 12)
        );
        assert_eq!(rt; (five, seven), (Ok(12), Ok(7)));
    }
    Ok(())
}

#[test]
fn each_caller_finds_what_it_heard(rt: HostRuntime) -> Result<(), Fail> {
    let alloc = rt.alloc();
    let mut heard = Vec::with_capacity(alloc, 16).expect(&rt, "no memory");
    let mut adders = Vec::with_capacity(alloc, 16).expect(&rt, "no memory");
    let mut passes = Vec::with_capacity(alloc, 17).expect(&rt, "no memory");
    let (shared, mut first) = opened(alloc, &rt, Counter::new(alloc));
    shared.split_all(&mut first, &mut passes, 16);
    hire(&shared, &mut passes, &mut adders, Add(5));
    let added = add_at_once(alloc, &rt, &shared, &mut adders, 1000);
    assert!(rt; added.is_ok());
    dismiss(&shared, adders, &mut passes, &mut heard);
    let counter = shared.close_all(first, passes);
    assert_eq!(rt; counter.entries().len(), 16_000);
    assert_eq!(rt; counter.total(), 80_000);
    for (i, replies) in heard.into_iter().enumerate() {
        let caller = i as u64 + 1;
        let own = counter.entries().iter().filter(|e| e.caller == caller);
        let replies = replies.expect(&rt, "no memory");
        assert_eq!(rt; replies.len(), 1000);
        assert!(rt;
            own.map(|e| (e.call, e.reply))
                .eq(replies.into_iter().map(|r| (Add(5), r)))
        );
    }
    Ok(())
}

#[test]
fn a_refused_call_leaves_the_pass(rt: HostRuntime) -> Result<(), Fail> {
    let alloc = rt.alloc();
    let passes = Vec::with_capacity(alloc, 1).expect(&rt, "no memory");
    let object = FailsOnce {
        object: Counter::new(alloc),
        left: 2,
    };
    let (shared, mut first) = opened(alloc, &rt, object);
    assert_eq!(rt; shared.call(&rt, &mut first, &Add(1)), Ok(1));
    assert_eq!(rt; shared.call(&rt, &mut first, &Add(2)), Ok(3));
    assert!(rt; shared.call(&rt, &mut first, &Add(3)).is_err());
    assert_eq!(rt; shared.call(&rt, &mut first, &Add(4)), Ok(7));
    let counter = shared.close_all(first, passes).object;
    let amounts = counter.entries().iter().map(|e| (e.caller, e.call.0));
    assert!(rt; amounts.eq([(0, 1), (0, 2), (0, 4)]));
    Ok(())
}
