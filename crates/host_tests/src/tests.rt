// Calls on stacks of hosts, accepted and declined.
use crate::Counting;
use host::{
    Call, Controls, Host, NoCommand, Pair, PairCommand, Switch, SwitchCommand, make_all, row_key,
};
use ledger::{Ledger, Line, Mark};
use scorebook::{Record, ScoreBook};
use std::alloc::{AllocError, Global};
use std::process::Abort;
use std::test::Fail;
use values::{Cause, Entry, HostState, Kind};

type Hosts = Pair<Switch<Ledger>, Switch<ScoreBook>>;

const SCORE: Entry = Entry {
    kind: Kind::Score,
    number: Some(720),
};

const FEE: Entry = Entry {
    kind: Kind::Fee,
    number: Some(-2500),
};

// An empty ledger over a table of so many lines.
fn ledger(heap: Global, lines: usize) -> Result<Ledger, AllocError> {
    let table = vec![in heap; Line::UNUSED; lines]?;
    Ok(Ledger::new(table))
}

// An empty score book over a table of so many records.
fn score_book(heap: Global, records: usize) -> Result<ScoreBook, AllocError> {
    let table = vec![in heap; Record::UNUSED; records]?;
    Ok(ScoreBook::new(table))
}

fn hosts(heap: Global, lines: usize, records: usize) -> Result<Hosts, AllocError> {
    let fees = ledger(heap, lines)?;
    let scores = score_book(heap, records)?;
    Ok(Pair::new(Kind::Fee, Switch::new(fees), Switch::new(scores)))
}

// The cause with which a call is declined.
fn cause_of<X: Host>(host: &mut X, call: Call) -> Option<Cause> {
    call.make(host).err().map(|fault| fault.cause)
}

// Gives a command: whether the host is shut then, if it did not decline.
fn shut_after<X: Controls>(host: &mut X, command: &X::Command) -> Option<bool> {
    host.control(command).ok()
}

// Makes each call and compares the number of its cause, which is 0 if the call is accepted: faults are printed by number.
fn expect<X: Host>(rt: &impl Abort, host: &mut X, cases: &[(Call, u8)]) {
    for (call, cause) in cases {
        assert_eq!(rt; cause_of(host, *call).map_or(0, u8::from), *cause);
    }
}

// Begins rows from 1 on until one is declined: how many were begun, and the number of the cause.
fn fill<X: Host>(host: &mut X, entry: Entry) -> Option<(u16, u8)> {
    (0..1000u16).find_map(|begun| {
        let cause = cause_of(host, Call::Begin(row_key(begun + 1), entry))?;
        Some((begun, u8::from(cause)))
    })
}

#[test]
fn rows_go_only_by_lawful_turns(rt: HostRuntime) -> Result<(), Fail> {
    let mut pair = hosts(rt.alloc(), 768, 256)?;
    let cases = [
        (Call::Begin(1, FEE), 0),
        (Call::Begin(2, SCORE), 0),
        (Call::Begin(3, FEE), 0),
        (Call::Begin(0, FEE), 15),
        (Call::Begin(257, SCORE), 15),
        (Call::Begin(1, SCORE), 15),
        (Call::Begin(2, FEE), 15),
        (Call::Undo(1), 15),
        (Call::Commit(1), 0),
        (Call::Commit(1), 15),
        (Call::Drop(1), 15),
        (Call::Commit(2), 0),
        (Call::Undo(2), 0),
        (Call::Undo(2), 15),
        (Call::Drop(3), 0),
        (Call::Undo(3), 15),
        (Call::Commit(3), 15),
        (Call::Begin(3, FEE), 15),
        (Call::Commit(4), 15),
        (Call::Drop(0), 15),
        (Call::Undo(257), 15),
    ];
    expect(&rt, &mut pair, &cases);
    assert_eq!(rt; pair.state(1), HostState::Standing);
    assert_eq!(rt; pair.state(2), HostState::Reversed);
    assert_eq!(rt; pair.state(3), HostState::Void);
    assert_eq!(rt; pair.state(4), HostState::Unknown);
    assert_eq!(rt; pair.room(Kind::Fee), 254);
    assert_eq!(rt; pair.room(Kind::Score), 255);
    assert_eq!(rt; pair.first().inner().balance(), -2500);
    Ok(())
}

#[test]
fn a_shut_side_shuts_the_pair(rt: HostRuntime) -> Result<(), Fail> {
    let mut pair = hosts(rt.alloc(), 6, 1)?;
    expect(&rt, &mut pair, &[(Call::Begin(1, FEE), 0)]);
    assert!(rt; shut_after(&mut pair, &PairCommand::First(SwitchCommand::Off)) == Some(true));
    let declined = [
        (Call::Begin(2, SCORE), 13),
        (Call::Begin(0, SCORE), 13),
        (Call::Commit(1), 13),
        (Call::Drop(1), 13),
        (Call::Undo(1), 13),
    ];
    expect(&rt, &mut pair, &declined);
    assert_eq!(rt; pair.state(1), HostState::Open);
    assert_eq!(rt; pair.room(Kind::Fee), 1);
    assert!(rt; shut_after(&mut pair, &PairCommand::Second(SwitchCommand::Off)) == Some(true));
    assert!(rt; shut_after(&mut pair, &PairCommand::First(SwitchCommand::On)) == Some(true));
    assert!(rt; shut_after(&mut pair, &PairCommand::Second(SwitchCommand::On)) == Some(false));
    expect(
        &rt,
        &mut pair,
        &[(Call::Commit(1), 0), (Call::Begin(2, SCORE), 0)],
    );
    Ok(())
}

// A table's length, the rooms for fees and scores, and the causes at which each is full.
const TABLES: [(usize, u16, u8, u16, u8); 8] = [
    (0, 0, 14, 0, 14),
    (1, 0, 14, 1, 14),
    (2, 0, 14, 2, 14),
    (3, 1, 14, 3, 14),
    (256, 85, 14, 256, 15),
    (257, 85, 14, 256, 15),
    (768, 256, 15, 256, 15),
    (769, 256, 15, 256, 15),
];

fn fills(
    rt: &impl Abort,
    heap: Global,
    length: usize,
    fees: (u16, u8),
    scores: (u16, u8),
) -> Result<(), Fail> {
    let mut book = ledger(heap, length)?;
    assert_eq!(rt; book.room(Kind::Fee), fees.0);
    assert_eq!(rt; book.room(Kind::Score), 0);
    assert!(rt; fill(&mut book, FEE) == Some(fees));
    let mut book = score_book(heap, length)?;
    assert_eq!(rt; book.room(Kind::Score), scores.0);
    assert_eq!(rt; book.room(Kind::Fee), 0);
    assert!(rt; fill(&mut book, SCORE) == Some(scores));
    Ok(())
}

#[test]
fn tables_of_any_length(rt: HostRuntime) -> Result<(), Fail> {
    for (length, fees, fees_full, scores, scores_full) in TABLES {
        fills(
            &rt,
            rt.alloc(),
            length,
            (fees, fees_full),
            (scores, scores_full),
        )?;
    }
    Ok(())
}

#[test]
fn a_full_ledger_can_still_be_settled(rt: HostRuntime) -> Result<(), Fail> {
    let mut pair = hosts(rt.alloc(), 4, 0)?;
    let calls = [
        Call::Begin(256, FEE),
        Call::Begin(1, FEE),
        Call::Commit(256),
        Call::Undo(256),
    ];
    assert_eq!(rt; make_all(&mut pair, &calls), 3);
    let (fees, scores) = pair.into_hosts();
    assert_eq!(rt; fees.inner().balance(), 0);
    let table = fees.into_inner().into_table();
    assert!(rt; table.len() == 4);
    assert!(rt; table[2].mark == Mark::Contra);
    assert!(rt; table[3].row == Line::UNUSED.row);
    assert_eq!(rt; scores.into_inner().into_table().len(), 0);
    Ok(())
}

#[test]
fn hosts_stand_on_hosts(rt: HostRuntime) -> Result<(), Fail> {
    let inner = hosts(rt.alloc(), 3, 1)?;
    let other = hosts(rt.alloc(), 0, 2)?;
    let mut stack = Switch::new(Pair::new(Kind::Fee, inner, Switch::new(other)));
    let calls = [
        (Call::Begin(7, FEE), 0),
        (Call::Begin(8, SCORE), 0),
        (Call::Begin(9, FEE), 14),
        (Call::Commit(8), 0),
    ];
    expect(&rt, &mut stack, &calls);
    let off = SwitchCommand::Below(PairCommand::Second(SwitchCommand::Below(PairCommand::First(
        SwitchCommand::Off,
    ))));
    assert!(rt; shut_after(&mut stack, &off) == Some(true));
    expect(&rt, &mut stack, &[(Call::Undo(8), 13)]);
    assert_eq!(rt; stack.state(8), HostState::Standing);
    assert_eq!(rt; stack.room(Kind::Score), 1);
    Ok(())
}

#[test]
fn a_command_to_a_book_changes_nothing(rt: HostRuntime) -> Result<(), Fail> {
    let mut pair = hosts(rt.alloc(), 6, 1)?;
    expect(&rt, &mut pair, &[(Call::Begin(1, FEE), 0)]);
    assert!(rt;
        shut_after(
            &mut pair,
            &PairCommand::First(SwitchCommand::Below(NoCommand))
        ) == Some(false)
    );
    assert!(rt; shut_after(&mut pair, &PairCommand::Second(SwitchCommand::Off)) == Some(true));
    assert!(rt;
        shut_after(
            &mut pair,
            &PairCommand::First(SwitchCommand::Below(NoCommand))
        ) == Some(true)
    );
    assert_eq!(rt; pair.state(1), HostState::Open);
    assert_eq!(rt; pair.room(Kind::Fee), 1);
    Ok(())
}

// The marks of a ledger's lines, as letters, and the states of a score book's records.
fn marks(heap: Global, book: &Ledger) -> Result<String, AllocError> {
    book.lines()
        .iter()
        .map(|line| match line.mark {
            Mark::Hold => 'h',
            Mark::Post => 'p',
            Mark::Contra => 'c',
            Mark::Release => 'r',
        })
        .collect(heap)
}

// A call, and the marks of both ledgers after it: the second has room for fees, too, and knows rows 4 and 5 from before.
const SIDES: [(Call, &str, &str); 10] = [
    (Call::Begin(1, FEE), "h", "hh"),
    (Call::Begin(1, FEE), "h", "hh"),
    (Call::Commit(1), "hp", "hh"),
    (Call::Begin(2, SCORE), "hp", "hh"),
    (Call::Commit(4), "hp", "hhp"),
    (Call::Begin(4, FEE), "hp", "hhp"),
    (Call::Drop(5), "hp", "hhpr"),
    (Call::Undo(1), "hpc", "hhpr"),
    (Call::Undo(4), "hpc", "hhprc"),
    (Call::Begin(3, FEE), "hpch", "hhprc"),
];

#[test]
fn only_one_side_is_written(rt: HostRuntime) -> Result<(), Fail> {
    let mut other = ledger(rt.alloc(), 9)?;
    make_all(&mut other, &[Call::Begin(4, FEE), Call::Begin(5, FEE)]);
    let mut pair = Pair::new(Kind::Fee, ledger(rt.alloc(), 9)?, other);
    for (call, first, second) in SIDES {
        let _ = call.make(&mut pair);
        let written = marks(rt.alloc(), pair.first())?;
        assert_eq!(rt; written.as_str(), first);
        let written = marks(rt.alloc(), pair.second())?;
        assert_eq!(rt; written.as_str(), second);
    }
    Ok(())
}

#[test]
fn a_switch_is_turned_over_any_host(rt: HostRuntime) -> Result<(), Fail> {
    let mut stack = Switch::new(Switch::new(score_book(rt.alloc(), 2)?));
    expect(&rt, &mut stack, &[(Call::Begin(1, SCORE), 0)]);
    stack.turn(false);
    assert!(rt; !stack.is_on());
    assert!(rt; stack.inner().is_on());
    expect(&rt, &mut stack, &[(Call::Commit(1), 13)]);
    stack.turn(true);
    expect(&rt, &mut stack, &[(Call::Commit(1), 0)]);
    Ok(())
}

#[test]
fn a_host_may_keep_more_than_it_shows(rt: HostRuntime) -> Result<(), Fail> {
    let fees = Counting::new(ledger(rt.alloc(), 6)?);
    let mut pair = Pair::new(Kind::Fee, fees, score_book(rt.alloc(), 1)?);
    let calls = [
        (Call::Begin(1, FEE), 0),
        (Call::Begin(1, FEE), 15),
        (Call::Undo(1), 15),
        (Call::Commit(2), 15),
        (Call::Commit(1), 0),
    ];
    expect(&rt, &mut pair, &calls);
    assert_eq!(rt; pair.first().declined(), 2);
    Ok(())
}
