//! An object and clusters up to their limits, from both sides: the last that is taken, and one more.
use crate::acts::{ENOUGH_TURNS, object, one_object, read_at};
use bytes::Bytes;
use cluster::Cluster;
use driver::{First, NotAnswered};
use layout::Layout;
use register::{Receipt, Register};
use std::alloc::Global;
use std::process::Abort;
use tag::{MOST_LAYOUTS, MOST_OBJECTS, MOST_POSITIONS, Refusal, Stamp};

// What is done to a cluster of one server.
#[derive(Clone, Copy)]
enum Action {
    // One more layout, of this server.
    AddLayout,
    // One more object, of layout 0.
    Create,
    // A whole write of so many bytes.
    Write(usize),
    // A whole move.
    Move,
    // A whole read, of so many bytes.
    Read(usize),
    // A read begins.
    CallRead,
    // A copy of the first message.
    Repeat,
    // The message at this place is lost.
    Lose(usize),
}

fn add_layout(cluster: &mut Cluster) -> Result<(), Refusal> {
    let layout = Layout::new(1, &[0])?;
    cluster.add_layout(layout)?;
    Ok(())
}

// The number of the last step is a name that no object has.
fn create(alloc: Global, cluster: &mut Cluster) -> Result<(), Refusal> {
    let name = format!(in alloc; "{}", cluster.counter())?;
    cluster.create(&name, 0)
}

fn answered(outcome: Result<Receipt, NotAnswered>) -> Result<(), Refusal> {
    match outcome {
        Ok(_) => Ok(()),
        Err(NotAnswered::NotCalled(refusal)) => Err(refusal),
        Err(NotAnswered::Open { refusal, .. }) => Err(refusal),
    }
}

fn write(alloc: Global, cluster: &mut Cluster, len: usize) -> Result<(), Refusal> {
    let value = Bytes::from_vec(vec![in alloc; 7; len]?)?;
    answered(driver::write(alloc, cluster, "a", value, &mut First, ENOUGH_TURNS))
}

// It is refused as BadPieces where it gives another number of bytes.
fn read(alloc: Global, cluster: &mut Cluster, len: usize) -> Result<(), Refusal> {
    match driver::read(alloc, cluster, "a", &mut First, ENOUGH_TURNS) {
        Ok(receipt) => expect_len(&receipt, len),
        other => answered(other),
    }
}

fn expect_len(receipt: &Receipt, len: usize) -> Result<(), Refusal> {
    match &receipt.value {
        Some(value) if value.len() == len => Ok(()),
        _ => Err(Refusal::BadPieces),
    }
}

fn move_on(alloc: Global, cluster: &mut Cluster) -> Result<(), Refusal> {
    answered(driver::move_to(alloc, cluster, "a", 0, &mut First, ENOUGH_TURNS))
}

fn call_read(cluster: &mut Cluster) -> Result<(), Refusal> {
    cluster.call_read("a")?;
    Ok(())
}

fn carry_out(alloc: Global, cluster: &mut Cluster, action: Action) -> Result<(), Refusal> {
    match action {
        Action::AddLayout => add_layout(cluster),
        Action::Create => create(alloc, cluster),
        Action::Write(len) => write(alloc, cluster, len),
        Action::Move => move_on(alloc, cluster),
        Action::Read(len) => read(alloc, cluster, len),
        Action::CallRead => call_read(cluster),
        Action::Repeat => cluster.repeat("a", 0),
        Action::Lose(place) => cluster.lose("a", place),
    }
}

// Does each so many times, each time with the refusal that is written beside it.
fn play(
    rt: &impl Abort,
    alloc: Global,
    cluster: &mut Cluster,
    actions: &[(Action, usize, Option<Refusal>)],
) {
    for (action, count, expected) in actions {
        for _ in 0..*count {
            let met = carry_out(alloc, cluster, *action).err();
            assert!(rt; met == *expected);
        }
    }
}

fn assert_counts(rt: &impl Abort, cluster: &Cluster, calls: u64, steps: Stamp, stored: u64) {
    assert!(rt; cluster.calls() == calls && cluster.counter() == steps);
    assert!(rt; cluster.stored_all() == stored);
}

/// One server, one layout, and the object `a`.
fn one_server(rt: &impl Abort, alloc: Global) -> Cluster {
    one_object(rt, alloc, 1, 1, &[0])
}

const LAYOUTS: &[(Action, usize, Option<Refusal>)] = &[
    (Action::AddLayout, MOST_LAYOUTS - 1, None),
    (Action::AddLayout, 1, Some(Refusal::Full)),
];

#[test]
fn is_full_of_layouts(rt: HostRuntime) {
    let mut cluster = one_server(&rt, rt.alloc());
    play(&rt, rt.alloc(), &mut cluster, LAYOUTS);
    assert_counts(&rt, &cluster, 0, 1025, 0);
}

const OBJECTS: &[(Action, usize, Option<Refusal>)] = &[
    (Action::Create, MOST_OBJECTS - 1, None),
    (Action::Create, 1, Some(Refusal::Full)),
];

#[test]
fn is_full_of_objects(rt: HostRuntime) {
    let mut cluster = one_server(&rt, rt.alloc());
    play(&rt, rt.alloc(), &mut cluster, OBJECTS);
    assert_counts(&rt, &cluster, 0, 65_537, 0);
}

const POSITIONS: &[(Action, usize, Option<Refusal>)] = &[
    (Action::Move, MOST_POSITIONS - 1, None),
    (Action::Move, 1, Some(Refusal::Full)),
];

#[test]
fn is_full_of_positions(rt: HostRuntime) {
    let mut cluster = one_server(&rt, rt.alloc());
    play(&rt, rt.alloc(), &mut cluster, POSITIONS);
}

const MESSAGES: &[(Action, usize, Option<Refusal>)] = &[
    (Action::CallRead, 1, None),
    (Action::Repeat, 1_048_575, None),
    (Action::Repeat, 1, Some(Refusal::Full)),
    (Action::CallRead, 1, Some(Refusal::Full)),
    (Action::Lose(1_048_575), 1, None),
    (Action::CallRead, 1, None),
    (Action::Repeat, 1, Some(Refusal::Full)),
];

#[test]
fn the_message_1_048_576(rt: HostRuntime) {
    let mut cluster = one_server(&rt, rt.alloc());
    play(&rt, rt.alloc(), &mut cluster, MESSAGES);
    assert!(rt; cluster.calls() == 2);
}

const TOO_LONG: &[(Action, usize, Option<Refusal>)] = &[(
    Action::Write(16_777_217),
    1,
    Some(Refusal::TooLong),
)];

const LONGEST: &[(Action, usize, Option<Refusal>)] = &[
    (Action::Write(16_777_216), 1, None),
    (Action::Read(16_777_216), 1, None),
];

#[test]
fn a_value_of_16_mebibytes(rt: HostRuntime) {
    let mut cluster = one_server(&rt, rt.alloc());
    play(&rt, rt.alloc(), &mut cluster, TOO_LONG);
    assert_counts(&rt, &cluster, 0, 2, 0);
    play(&rt, rt.alloc(), &mut cluster, LONGEST);
    // A write is 16 steps and a read is 14, where there is one server.
    assert_counts(&rt, &cluster, 2, 32, 16_777_216);
}

/// Steps at which a read begins, what each answers, and the last step then.
const STEPS: &[(Stamp, Option<Refusal>, Stamp)] = &[
    ((1 << 62) + 1, Some(Refusal::Full), 1),
    (1 << 62, None, 1 << 62),
];

fn read_each(rt: &impl Abort, object: &mut Register, steps: &[(Stamp, Option<Refusal>, Stamp)]) {
    for (now, expected, last) in steps {
        let met = read_at(rt, object, *now).err();
        assert!(rt; met == *expected && object.last() == *last);
    }
}

#[test]
fn a_step_at_2_to_the_62(rt: HostRuntime) {
    let mut object = object(&rt, rt.alloc(), 1, &[0]);
    read_each(&rt, &mut object, STEPS);
}
