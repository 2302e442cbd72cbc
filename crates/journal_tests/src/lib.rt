// Tests of the crates `journal` and `playing`: texts and what they say, worked out by hand from the rules.
#![tactic(auto)]

#[cfg(test)]
mod printing;

#[cfg(test)]
mod tests {
    use journal::{ParseError, parse};
    use playing::run;
    use std::alloc::Global;
    use std::process::Abort;
    use std::test::Fail;

    // The text is refused, with these words.
    fn refused(rt: &impl Abort, heap: Global, text: &[u8], words: &str) -> Result<(), Fail> {
        match parse(heap, text) {
            Ok(_) => Err(Fail::new("it was read")),
            Err(ParseError::Memory(error)) => Err(Fail::from(error)),
            Err(error) => {
                let told = format!(in heap; "{error}")?;
                assert!(rt; told.as_str() == words, "{}", words);
                Ok(())
            }
        }
    }

    // The text is read, and says this.
    fn is_read(
        rt: &impl Abort,
        heap: Global,
        text: &[u8],
        process: &[u8],
        line: usize,
        numbers: [u16; 3],
    ) -> Result<(), Fail> {
        let journal = parse(heap, text)?;
        assert!(rt; journal.process.as_slice() == process, "process");
        assert!(rt; journal.process_line == line, "line of the process");
        assert!(rt; journal.serial == numbers[0], "serial");
        assert!(rt; journal.scores == numbers[1], "scores");
        assert!(rt; journal.ledger == numbers[2], "ledger");
        Ok(())
    }

    #[test]
    fn readable(rt: HostRuntime) -> Result<(), Fail> {
        let heap = rt.alloc();
        is_read(
            &rt,
            heap,
            b"process 00ff\nserial 7\n",
            b"\x00\xff",
            1,
            [7, 256, 768],
        )?;
        is_read(
            &rt,
            heap,
            b"process 00\r\nserial 7\r\n",
            b"\x00",
            1,
            [7, 256, 768],
        )?;
        is_read(
            &rt,
            heap,
            b"process 00\nserial 65535",
            b"\x00",
            1,
            [65535, 256, 768],
        )?;
        is_read(
            &rt,
            heap,
            b"process 00\nserial 7\nscores 0\nledger 1",
            b"\x00",
            1,
            [7, 0, 1],
        )?;
        is_read(
            &rt,
            heap,
            b"process 00\nserial 7\nledger 65535\n\nscores 9\n",
            b"\x00",
            1,
            [7, 9, 65535],
        )?;
        is_read(
            &rt,
            heap,
            b"#x\n \t \nprocess aBcDeF\nserial 0\n",
            b"\xab\xcd\xef",
            3,
            [0, 256, 768],
        )?;
        is_read(
            &rt,
            heap,
            b"\t process\t \t0a  \n  # \xff\x01\r\n serial\t000000000000000000000007 \n",
            b"\n",
            1,
            [7, 256, 768],
        )
    }

    #[test]
    fn settings_out_of_place(rt: HostRuntime) -> Result<(), Fail> {
        let heap = rt.alloc();
        refused(&rt, heap, b"", "line 1: the process must come first")?;
        refused(&rt, heap, b"\n\n", "line 3: the process must come first")?;
        refused(&rt, heap, b"# only", "line 2: the process must come first")?;
        refused(
            &rt,
            heap,
            b"\nserial 7\nprocess 00\n",
            "line 2: the process must come first",
        )?;
        refused(
            &rt,
            heap,
            b"ledger 7\n",
            "line 1: the process must come first",
        )?;
        refused(
            &rt,
            heap,
            b"process 00",
            "line 2: the serial must come straight after the process",
        )?;
        refused(
            &rt,
            heap,
            b"process 00\n\n",
            "line 3: the serial must come straight after the process",
        )?;
        refused(
            &rt,
            heap,
            b"process 00\nscores 5\nserial 7\n",
            "line 2: the serial must come straight after the process",
        )?;
        refused(
            &rt,
            heap,
            b"process 00\nprocess 00\nserial 7\n",
            "line 2: this setting was given before",
        )?;
        refused(
            &rt,
            heap,
            b"process 00\nserial 7\nprocess 00\n",
            "line 3: this setting was given before",
        )?;
        refused(
            &rt,
            heap,
            b"process 00\nserial 7\nserial 7\n",
            "line 3: this setting was given before",
        )?;
        refused(
            &rt,
            heap,
            b"process 00\nserial 7\nscores 1\nledger 2\nscores 1\n",
            "line 5: this setting was given before",
        )?;
        refused(
            &rt,
            heap,
            b"process 00\nserial 7\nledger 1\nledger 1\n",
            "line 4: this setting was given before",
        )
    }

    #[test]
    fn numbers_and_digits(rt: HostRuntime) -> Result<(), Fail> {
        let heap = rt.alloc();
        refused(
            &rt,
            heap,
            b"process 00\nserial 65536\n",
            "line 2: a number is too large",
        )?;
        refused(
            &rt,
            heap,
            b"process 00\nserial 18446744073709551617\n",
            "line 2: a number is too large",
        )?;
        refused(
            &rt,
            heap,
            b"process 00\nserial 7\nscores 65536\n",
            "line 3: a number is too large",
        )?;
        refused(
            &rt,
            heap,
            b"process 00\nserial 7x\n",
            "line 2: a number has a character that is no decimal digit",
        )?;
        refused(
            &rt,
            heap,
            b"process 00\nserial 99999x\n",
            "line 2: a number has a character that is no decimal digit",
        )?;
        refused(
            &rt,
            heap,
            b"process 00\nserial -1\n",
            "line 2: a number has a character that is no decimal digit",
        )?;
        refused(
            &rt,
            heap,
            b"process 00\nserial\n",
            "line 2: a word is missing",
        )?;
        refused(
            &rt,
            heap,
            b"process 00\nserial 7 8\n",
            "line 2: there is a word too many",
        )?;
        refused(&rt, heap, b"process \n", "line 1: a word is missing")?;
        refused(
            &rt,
            heap,
            b"process 00 00\n",
            "line 1: there is a word too many",
        )?;
        refused(
            &rt,
            heap,
            b"process 000\n",
            "line 1: the process has an odd number of hex digits",
        )?;
        refused(
            &rt,
            heap,
            b"process 0g\n",
            "line 1: the process has a character that is no hex digit",
        )?;
        refused(
            &rt,
            heap,
            b"process g00\n",
            "line 1: the process has a character that is no hex digit",
        )
    }

    #[test]
    fn words_and_bytes(rt: HostRuntime) -> Result<(), Fail> {
        let heap = rt.alloc();
        refused(
            &rt,
            heap,
            b"Process 00\n",
            "line 1: the first word is unknown",
        )?;
        refused(
            &rt,
            heap,
            b"processes 00\n",
            "line 1: the first word is unknown",
        )?;
        refused(
            &rt,
            heap,
            b"process 00\nserial 7\n7 #\n",
            "line 3: the first word is unknown",
        )?;
        refused(
            &rt,
            heap,
            b"process 00\nserial 7\x01\n",
            "line 2: a byte is neither printable ASCII nor a space nor a tab",
        )?;
        refused(
            &rt,
            heap,
            b"process 00\nseri\xc3\xa4l 7\n",
            "line 2: a byte is neither printable ASCII nor a space nor a tab",
        )?;
        refused(
            &rt,
            heap,
            b"process 00\x7f\n",
            "line 1: a byte is neither printable ASCII nor a space nor a tab",
        )?;
        refused(
            &rt,
            heap,
            b"\x0c#\n",
            "line 1: a byte is neither printable ASCII nor a space nor a tab",
        )?;
        refused(
            &rt,
            heap,
            b"process 00\r\r\n",
            "line 1: a byte is neither printable ASCII nor a space nor a tab",
        )?;
        refused(
            &rt,
            heap,
            b"process 00\r",
            "line 1: a byte is neither printable ASCII nor a space nor a tab",
        )?;
        refused(
            &rt,
            heap,
            b"process zz 00\x00\n",
            "line 1: a byte is neither printable ASCII nor a space nor a tab",
        )
    }

    // The line is read after the settings, and is told so: the number of the line, its word and its event.
    fn says(rt: &impl Abort, heap: Global, line: &str, told: &str) -> Result<(), Fail> {
        let text = format!(in heap; "process 00\nserial 7\n{line}\n")?;
        let journal = parse(heap, text.as_bytes())?;
        let mut said = String::new(heap);
        for line in &journal.lines {
            let number = line.number;
            let word = line.word();
            let event = &line.event;
            said.push_str(format!(in heap; "{number} {word}: {event:?}")?.as_str())?;
        }
        assert_eq!(rt; said.as_str(), told);
        Ok(())
    }

    // The line is refused after the settings, with these words.
    fn unsaid(rt: &impl Abort, heap: Global, line: &str, words: &str) -> Result<(), Fail> {
        let text = format!(in heap; "process 00\nserial 7\n{line}\n")?;
        let told = format!(in heap; "line 3: {words}")?;
        refused(rt, heap, text.as_bytes(), told.as_str())
    }

    #[test]
    fn readable_calls(rt: HostRuntime) -> Result<(), Fail> {
        let heap = rt.alloc();
        let table = [
            (
                "start 1 - score 5",
                "3 start: Start { step: 1, predecessors: [], entry: Entry { kind: Score, number: Some(5) } }",
            ),
            (
                "start 065535 7,0,65535 fee -2147483648",
                "3 start: Start { step: 65535, predecessors: [7, 0, 65535], entry: Entry { kind: Fee, number: Some(-2147483648) } }",
            ),
            (
                "\tstart 2 3 fee  - ",
                "3 start: Start { step: 2, predecessors: [3], entry: Entry { kind: Fee, number: None } }",
            ),
            (
                "start 2 3 score -0",
                "3 start: Start { step: 2, predecessors: [3], entry: Entry { kind: Score, number: Some(0) } }",
            ),
            ("end 00012", "3 end: End { row: 12 }"),
            ("abort complete", "3 abort: Abort { mode: Complete }"),
            ("abort partial 4", "3 abort: Abort { mode: Partial(4) }"),
            (
                "undo 7/2 5",
                "3 undo: Undo { ticket: TicketNumber { serial: 7, rollback: 2 }, row: 5 }",
            ),
            (
                "finish 65535/0",
                "3 finish: Finish { ticket: TicketNumber { serial: 65535, rollback: 0 } }",
            ),
            (
                "park 7/01",
                "3 park: Park { ticket: TicketNumber { serial: 7, rollback: 1 } }",
            ),
            ("resume", "3 resume: Resume"),
            ("listing", "3 listing: Listing"),
            ("reply 4294967295", "3 reply: Reply { place: 4294967295 }"),
            ("shut ledger", "3 shut: Control { command: First(Off) }"),
            ("open scores", "3 open: Control { command: Second(On) }"),
            (
                "memory 257 256 1000000 0 32",
                "3 memory: Lend { sizes: Sizes { column: 257, line: 256, arrows: 1000000, restarts: 0, buffer: 32 } }",
            ),
            (
                "scores 9\n# x\n\nlisting\nend 1",
                "6 listing: Listing7 end: End { row: 1 }",
            ),
        ];
        for (line, told) in table {
            says(&rt, heap, line, told)?;
        }
        Ok(())
    }

    #[test]
    fn unreadable_calls(rt: HostRuntime) -> Result<(), Fail> {
        let heap = rt.alloc();
        let few = "a word is missing";
        let many = "there is a word too many";
        let digits = "a number has a character that is no decimal digit";
        let large = "a number is too large";
        let missing = "a number is missing in a list or a ticket";
        let table = [
            ("start 1 - score", few),
            ("start x - gold", few),
            ("start x - score 5 6", many),
            ("start x - gold 5", digits),
            ("start 65536 - gold 5", large),
            ("start 1 1,, gold 5", missing),
            ("start 1 1,65536 gold 5", large),
            ("start 1 -1 score 5", digits),
            ("start 1 - gold x", "the kind is neither score nor fee"),
            ("start 1 - score 2147483648", large),
            ("start 1 - score -2147483649", large),
            ("start 1 - score --5", digits),
            ("end", few),
            ("end -", digits),
            ("end 1 2", many),
            ("abort", few),
            ("abort all 1", "an abort is neither complete nor partial"),
            ("abort complete 1", many),
            ("abort partial", few),
            ("undo 7/2", few),
            ("undo 7 x", "a ticket has no slash between its numbers"),
            ("undo 7/ 5", missing),
            ("undo 7/2/1 5", digits),
            ("finish /2", missing),
            ("park 7/65536", large),
            ("resume 1", many),
            ("listing 1", many),
            ("reply 4294967296", large),
            ("shut Ledger", "the host is neither ledger nor scores"),
            ("open", few),
            ("memory 1 2 3 4", few),
            ("memory 1 2 3 4 1000001", large),
            ("memory 1 2 3 4 5 6", many),
            ("restart", "the first word is unknown"),
        ];
        for (line, words) in table {
            unsaid(&rt, heap, line, words)?;
        }
        Ok(())
    }

    #[test]
    fn calls_out_of_place(rt: HostRuntime) -> Result<(), Fail> {
        let heap = rt.alloc();
        refused(
            &rt,
            heap,
            b"listing\nprocess 00\nserial 7\n",
            "line 1: the process must come first",
        )?;
        refused(
            &rt,
            heap,
            b"process 00\nlisting\nserial 7\n",
            "line 2: the serial must come straight after the process",
        )?;
        refused(
            &rt,
            heap,
            b"process 00\nserial 7\nlisting\nscores 1\n",
            "line 4: a setting comes after a call",
        )?;
        refused(
            &rt,
            heap,
            b"process 00\nserial 7\nledger 1\nshut ledger\nledger 1\n",
            "line 5: a setting comes after a call",
        )?;
        refused(
            &rt,
            heap,
            b"process 00\nserial 7\nlisting\nserial 7\n",
            "line 4: this setting was given before",
        )
    }

    // What comes of a whole journal.
    fn comes_of(
        rt: &impl Abort,
        heap: Global,
        text: &[u8],
        printed: &str,
        reported: &str,
        accepted: bool,
    ) -> Result<(), Fail> {
        let outcome = run(heap, text, false)?;
        assert!(rt; outcome.printed.as_str() == printed, "printed");
        assert!(rt; outcome.reported.as_str() == reported, "reported");
        assert!(rt; outcome.accepted == accepted, "accepted");
        Ok(())
    }

    // What is printed of a blank sheet with one step.
    fn one_step(
        rt: &impl Abort,
        heap: Global,
        text: &[u8],
        line: usize,
        step: &str,
    ) -> Result<(), Fail> {
        let calls = "calls 0 accepted 0 declined 0\nphase forward rollbacks 0\n";
        let rows = "rows 0 running 0 committed 0 dropped 0 due 0 undone 0 passed over 0\n";
        let printed = format!(in heap;
            "{line} process: steps 1 arrows 0\nsummary\n{calls}{rows}step 1 {step}\n"
        )?;
        comes_of(rt, heap, text, printed.as_str(), "", true)
    }

    #[test]
    fn outcomes(rt: HostRuntime) -> Result<(), Fail> {
        let heap = rt.alloc();
        // One step and no arrows; the name is A, a space and a byte above 126. Then the same step, private.
        one_step(
            &rt,
            heap,
            b"\nprocess 0102000000304120C3\nserial 7\n",
            2,
            "A?? none",
        )?;
        one_step(
            &rt,
            heap,
            b"process 0102000020304120c3\nserial 7",
            1,
            "A?? private",
        )?;
        // Two bytes are no header, and another form number is no process.
        let short =
            "1 process: declined 1 1 0 - the stored process ends too early or has bytes left over\n";
        let form = "1 process: declined 2 1 0 - the form number is not 1 or a spare bit is set\n";
        comes_of(&rt, heap, b"process 010a\nserial 7\n", short, "", false)?;
        comes_of(
            &rt,
            heap,
            b"process 0202000000304120c3\nserial 7\n",
            form,
            "",
            false,
        )?;
        // A line that cannot be read is told first, whatever the process is.
        let line = "line 2: a number has a character that is no decimal digit\n";
        comes_of(&rt, heap, b"process 010a\nserial x\n", "", line, false)
    }
}
