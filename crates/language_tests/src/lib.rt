// Tests of the language: where memory suffices, lines are read and answers are written.
#![tactic(auto)]

#[cfg(test)]
mod tests {
    use language::answer::Answer;
    use language::call;
    use language::call::{Call, StoreCall};
    use language::mistake::{Mistake, Trouble};
    use language::verb::Kind;
    use language::words::Words;
    use std::test::Fail;

    #[test]
    fn an_answer_is_written(rt: HostRuntime) -> Result<(), Fail> {
        let mut answer = Answer::new(rt.alloc());
        answer.text("got ")?;
        answer.number(2)?;
        answer.raw(b" ")?;
        answer.hex_line(b"\x00\xff")?;
        answer.yes_or_no(true)?;
        answer.refused(31)?;
        answer.line("end")?;
        answer.digits_line(b"a")?;
        answer.trouble(3, Trouble::Script(Mistake::NoStore))?;
        assert_eq!(rt;
            answer.finish()?,
            b"got 2 x:00ff\nyes\nrefused 31\nend\n61\nline 3: no store is open\n".as_slice()
        );
        Ok(())
    }

    #[test]
    fn words_are_read(rt: HostRuntime) -> Result<(), Fail> {
        let mut words = Words::new(rt.alloc(), b"x:6162 17 table c");
        assert!(rt;
            words
                .bytes()
                .is_ok_and(|bytes| bytes.as_slice() == b"ab".as_slice())
        );
        assert_eq!(rt; words.number_if_any(), Ok(Some(17)));
        assert_eq!(rt; words.kind(), Ok(Kind::Table));
        assert!(rt;
            words
                .bytes_if_any()
                .is_ok_and(|bytes| bytes.as_slice() == b"c".as_slice())
        );
        assert_eq!(rt; words.end(), Ok(()));
        Ok(())
    }

    #[test]
    fn calls_are_read(rt: HostRuntime) -> Result<(), Fail> {
        let heap = rt.alloc();
        let read = call::read(heap, b"hash abc", None);
        assert!(rt; matches!(read, Ok(Call::Hash { .. })));
        let read = call::read(heap, b"get a 40000", Some(Kind::Line));
        assert!(rt;
            matches!(
                read,
                Ok(Call::Store(StoreCall::Get {
                    space: Some(40_000),
                    ..
                }))
            )
        );
        let read = call::read(heap, b"text", Some(Kind::Table));
        assert!(rt; read.is_err());
        Ok(())
    }
}
