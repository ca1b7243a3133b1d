// Tests of the crates below, as they are compiled.
#![tactic(auto)]

#[cfg(test)]
mod tests {
    use digits::hex::Hex;
    use digits::show::Shown;
    use reader::{LONGEST, read};
    use rules::limits::blocks_of;
    use rules::refusal::Refusal;
    use std::alloc::Global;
    use std::test::Fail;

    // A line, read and written out.
    fn rewritten(heap: Global, text: &str) -> Result<String, Fail> {
        match read(text.as_bytes()) {
            Ok(Some(line)) => Ok(line.to_string(heap)?),
            Ok(None) => Err(Fail::new("skipped")),
            Err(_) => Err(Fail::new("misread")),
        }
    }

    #[test]
    fn lines_are_written_as_they_were_read(rt: HostRuntime) -> Result<(), Fail> {
        let texts = [
            "format 1024 18446744073709551615",
            "write 0 5",
            "write 0 5 00FF",
            "clear 7 1023",
            "hold 0",
            "release 1",
            "would 1",
            "copy 1",
            "new",
            "drop 4294967295",
            "read 0 5",
            "readhold 1 5",
            "free",
            "sync",
            "stream 0 1 a/b.stream",
            "take 0 caf\u{e9}",
            "power -",
            "power 0110",
            "power 01 3 write 0 5 00ff",
            "power - 0 sync",
            "show",
            "list",
        ];
        for text in &texts {
            assert!(rt; rewritten(rt.alloc(), text)?.as_str() == *text, "{}", text);
        }
        Ok(())
    }

    #[test]
    fn lines_are_written_plainly(rt: HostRuntime) -> Result<(), Fail> {
        let heap = rt.alloc();
        assert!(rt; rewritten(heap, "\t clear  007\t5 \r")?.as_str() == "clear 7 5");
        assert!(rt; rewritten(heap, "power")?.as_str() == "power -");
        assert!(rt;
            rewritten(heap, "hold 99999999999999999999")?.as_str() == "hold 18446744073709551615"
        );
        Ok(())
    }

    #[test]
    fn longest_line(rt: HostRuntime) -> Result<(), Fail> {
        let mut line = vec![in rt.alloc(); b' '; LONGEST]?;
        assert!(rt;
            matches!(read(line.as_slice()), Ok(None)),
            "as long as can be"
        );
        line.push(b' ')?;
        assert!(rt; matches!(read(line.as_slice()), Err(_)), "a byte too long");
        Ok(())
    }

    #[test]
    fn bytes_over_a_block(rt: HostRuntime) -> Result<(), Fail> {
        let mut block = [7u8; 4096];
        let Ok(hex) = Hex::try_from("00fFA0") else {
            return Err(Fail::new("hexadecimal"));
        };
        hex.put(&mut block);
        assert_eq!(rt; block[0], 0);
        assert_eq!(rt; block[1], 255);
        assert_eq!(rt; block[2], 160);
        assert_eq!(rt; block[3], 7);
        assert!(rt; Shown::of(&block[0..3]).to_string(rt.alloc())?.as_str() == "00ffa0");
        assert!(rt; Shown::of(&[1u8, 0, 0]).to_string(rt.alloc())?.as_str() == "01");
        assert!(rt; Shown::of(&[0u8, 0]).is_empty());
        Ok(())
    }

    #[test]
    fn limits_at_their_edges(rt: HostRuntime) {
        assert!(rt; blocks_of(1023).is_none());
        assert!(rt; blocks_of(1024) == Some(1024));
        assert!(rt; blocks_of(65536) == Some(65536));
        assert!(rt; blocks_of(65537).is_none());
        assert_eq!(rt; Refusal::Missing.number(), 1);
        assert_eq!(rt; Refusal::Spent.number(), 9);
    }
}
