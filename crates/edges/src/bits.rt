// Works through the edges of the bit set and prints for each group whether it came out right.
use bitfield::BitField;
use std::io;

// Each of the 4,097 bits is set at first.
fn all_set() -> bool {
    let set = BitField::new();
    (0..4097).all(|place| set.is_set(place))
}

// Bit 4,096 is the last; clearing one beyond it changes nothing.
fn beyond() -> bool {
    let set = BitField::new().clear(4097).clear(usize::MAX);
    set.is_set(4096)
        && !set.is_set(4097)
        && !set.is_set(usize::MAX)
        && set.successor(0) == Some(0)
        && set.predecessor(usize::MAX) == Some(4096)
}

// A bit stays clear when it is cleared twice, and its neighbours stay set.
fn clear() -> bool {
    let once = BitField::new().clear(64);
    let twice = once.clear(64);
    !once.is_set(64)
        && !twice.is_set(64)
        && twice.is_set(63)
        && twice.is_set(65)
        && !twice.clear(4096).is_set(4096)
}

// The next set bit: the place itself, over the seams of the words, and none.
fn successor() -> bool {
    let set = BitField::new().clear(63).clear(4095);
    let none = set.clear(4096);
    set.successor(62) == Some(62)
        && set.successor(63) == Some(64)
        && set.successor(4095) == Some(4096)
        && set.successor(4097) == None
        && none.successor(4095) == None
        && none.successor(usize::MAX) == None
}

// The last set bit: the place itself, over the seams of the words, and none.
fn predecessor() -> bool {
    let set = BitField::new().clear(64).clear(4096);
    let none = BitField::new().clear(0);
    set.predecessor(63) == Some(63)
        && set.predecessor(64) == Some(63)
        && set.predecessor(4096) == Some(4095)
        && set.predecessor(usize::MAX) == Some(4095)
        && none.predecessor(0) == None
}

pub(crate) fn work_through(rt: &impl Print) -> io::Result<()> {
    let groups = [
        ("all set", all_set()),
        ("beyond", beyond()),
        ("clear", clear()),
        ("successor", successor()),
        ("predecessor", predecessor()),
    ];
    for (name, right) in groups {
        let verdict = if right { "ok" } else { "wrong" };
        println!(rt; "{name}: {verdict}")?;
    }
    Ok(())
}
