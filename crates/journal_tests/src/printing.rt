// Tests of how answers and a summary are printed: the texts are written out by hand from the rules.
use playing::{Answer, CallCounts, RowCounts, StepLine, Summary, printable_name};
use std::alloc::Global;
use std::process::Abort;
use std::test::Fail;
use values::{Cause, Layer, Phase, RowArrow, RowState, TicketNumber};

// The answer is printed so.
fn is_printed(
    rt: &impl Abort,
    heap: Global,
    answer: Answer<'_>,
    printed: &str,
) -> Result<(), Fail> {
    let text = answer.to_string(heap)?;
    assert!(rt; text.as_str() == printed, "{}", printed);
    Ok(())
}

#[test]
fn answers(rt: HostRuntime) -> Result<(), Fail> {
    let heap = rt.alloc();
    is_printed(&rt, heap, Answer::Row(256), "row 256")?;
    is_printed(&rt, heap, Answer::Done, "done")?;
    let ticket = TicketNumber {
        serial: 7,
        rollback: 12,
    };
    is_printed(&rt, heap, Answer::Ticket(ticket), "ticket 7/12")?;
    let fault = Layer::Sheet.fault(Cause::NothingLive, 0);
    is_printed(
        &rt,
        heap,
        Answer::Declined(fault),
        "declined 19 2 0 - no row is live",
    )?;
    let bytes = [0, 9, 10, 15, 16, 160, 255];
    is_printed(&rt, heap, Answer::Reply(&bytes), "00090a0f10a0ff")
}

#[test]
fn listings(rt: HostRuntime) -> Result<(), Fail> {
    let heap = rt.alloc();
    let arrows = [
        RowArrow { from: 4, to: 2 },
        RowArrow { from: 4, to: 3 },
        RowArrow { from: 256, to: 1 },
    ];
    let several = Answer::Listed {
        arrows: &arrows,
        restarts: &[0, 11],
    };
    is_printed(&rt, heap, several, "arrows 4>2,4>3,256>1 restart 0,11")?;
    let one = Answer::Listed {
        arrows: &[],
        restarts: &[5],
    };
    is_printed(&rt, heap, one, "arrows - restart 5")?;
    let none = Answer::Listed {
        arrows: &[],
        restarts: &[],
    };
    is_printed(&rt, heap, none, "arrows - restart -")
}

#[test]
fn summary_with_a_balance(rt: HostRuntime) -> Result<(), Fail> {
    let heap = rt.alloc();
    let mut steps = Vec::new(heap);
    steps.push(StepLine {
        name: printable_name(heap, b"tee off")?,
        standing: Some(RowState::PassedOver),
    })?;
    let summary = Summary {
        calls: CallCounts {
            all: 9,
            accepted: 7,
            declined: 2,
        },
        phase: Phase::Parked,
        rollbacks: 1,
        rows: RowCounts {
            all: 6,
            running: 0,
            committed: 1,
            dropped: 2,
            due: 1,
            undone: 1,
            passed_over: 1,
        },
        steps,
        balance: Some(-250),
    };
    let text = summary.render(heap)?;
    let calls = "summary\ncalls 9 accepted 7 declined 2\nphase parked rollbacks 1\n";
    let rows = "rows 6 running 0 committed 1 dropped 2 due 1 undone 1 passed over 1\n";
    let printed = format!(in heap; "{calls}{rows}step 1 tee?off passed over\nbalance -250\n")?;
    assert!(rt; text.as_str() == printed.as_str(), "summary");
    Ok(())
}
