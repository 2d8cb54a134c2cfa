// Tests of the stores: both are driven through the same calls, at the edge of each limit.
#![tactic(auto)]

use line_store::LineStore;
use std::alloc::{AllocError, Global};
use store::Store;
use store::limits::BODY_MAX;

// The number of a store's answer: 0, or the refusal's.
fn code<T: Drop, E>(answer: Result<T, E>) -> u8
where
    u8: From<E>,
{
    match answer {
        Ok(_) => 0,
        Err(refusal) => u8::from(refusal),
    }
}

// The answer to opening a text in a buffer of its own size.
fn opening(heap: Global, text: &[u8]) -> Result<u8, AllocError> {
    let mut buffer = Vec::from_slice(heap, text)?;
    let mut store = LineStore::new(buffer.as_mut_slice());
    Ok(code(store.open(text.len())))
}

// What a store answers where a name is filed, looked for, and got into a full and a short buffer.
fn round<S: Store>(
    heap: Global,
    store: &mut S,
    name: &[u8],
    body: &[u8],
    answers: &mut Vec<u8>,
) -> Result<(), AllocError> {
    let mut full = vec![in heap; 0; BODY_MAX]?;
    let mut short = vec![in heap; 0; BODY_MAX - 1]?;
    answers.push(code(store.file(name, body)))?;
    answers.push(u8::from(store.has(name)))?;
    answers.push(code(store.get(name, full.as_mut_slice())))?;
    answers.push(code(store.get(name, short.as_mut_slice())))?;
    Ok(())
}

// A round at each of these names and bodies, at the edge of each limit.
fn drive<S: Store>(heap: Global, store: &mut S) -> Result<Vec<u8>, AllocError> {
    let mut answers = Vec::new(heap);
    let names: [&[u8]; 8] = [b"a", b"", b"b c", b"a", b"\x21", b"\x7e", b"\x7f", b"\xff"];
    for name in names {
        round(heap, store, name, b"body", &mut answers)?;
    }
    for len in [1, 95, 96, 97, 98] {
        let name = vec![in heap; b'n'; len]?;
        round(heap, store, name.as_slice(), b"", &mut answers)?;
    }
    for len in [0, BODY_MAX - 1, BODY_MAX, BODY_MAX + 1] {
        let name = format!(in heap; "body.{len}")?;
        let body = vec![in heap; 0xff; len]?;
        round(heap, store, name.as_bytes(), body.as_slice(), &mut answers)?;
    }
    Ok(answers)
}

#[cfg(test)]
mod tests {
    use super::*;
    use std::test::Fail;
    use table_store::TableStore;
    use table_store::table::Row;

    // file, has, get, get into a short buffer: in each round of `drive`
    const ROUNDS: [u8; 68] = [
        0, 1, 0, 1, // a
        9, 0, 9, 1, // no bytes
        9, 0, 9, 1, // a space
        21, 1, 0, 1, // a again
        0, 1, 0, 1, // 0x21
        0, 1, 0, 1, // 0x7E
        9, 0, 9, 1, // 0x7F
        9, 0, 9, 1, // 0xFF
        0, 1, 0, 1, // a name of 1
        0, 1, 0, 1, // of 95
        0, 1, 0, 1, // of 96
        9, 0, 9, 1, // of 97
        9, 0, 9, 1, // of 98
        0, 1, 0, 1, // a body of 0
        0, 1, 0, 1, // of 32,767
        0, 1, 0, 1, // of 32,768
        9, 0, 23, 1, // of 32,769
    ];

    #[test]
    fn both_stores_answer_alike(rt: HostRuntime) -> Result<(), Fail> {
        let heap = rt.alloc();
        let mut buffer = vec![in heap; 0; 200_000]?;
        let mut lines = LineStore::new(buffer.as_mut_slice());
        let answers = drive(heap, &mut lines)?;
        assert_eq!(rt; answers.as_slice(), ROUNDS.as_slice());
        let mut rows = vec![in heap; Row { name: 0, body: 0 }; 20]?;
        let mut block = vec![in heap; 0; 100_000]?;
        let mut table = TableStore::new(rows.as_mut_slice(), block.as_mut_slice());
        let answers = drive(heap, &mut table)?;
        assert_eq!(rt; answers.as_slice(), ROUNDS.as_slice());
        Ok(())
    }

    #[test]
    fn a_line_store_fills_to_its_last_byte(rt: HostRuntime) -> Result<(), Fail> {
        let heap = rt.alloc();
        let mut buffer = vec![in heap; 0; 14]?;
        let mut store = LineStore::new(buffer.as_mut_slice());
        assert_eq!(rt; code(store.file(b"a", b"bc")), 0);
        assert!(rt; store.fits(1, 1));
        assert!(rt; !store.fits(1, 2));
        assert_eq!(rt; code(store.file(b"d", b"ef")), 22);
        assert_eq!(rt; code(store.file(b"a", b"ef")), 21);
        assert_eq!(rt; code(store.file(b"d", b"e")), 0);
        assert_eq!(rt; store.text(), b"61 6263\n64 65\n".as_slice());
        assert!(rt; !store.fits(0, 0));
        assert_eq!(rt; code(store.file(b"f", b"")), 22);
        Ok(())
    }

    #[test]
    fn a_table_store_fills_its_rows_and_its_block(rt: HostRuntime) -> Result<(), Fail> {
        let heap = rt.alloc();
        let mut rows = vec![in heap; Row { name: 9, body: 9 }; 2]?;
        let mut block = vec![in heap; 0; 5]?;
        let mut store = TableStore::new(rows.as_mut_slice(), block.as_mut_slice());
        assert!(rt; !store.has(b"a"));
        assert!(rt; store.fits(2, 3));
        assert!(rt; !store.fits(3, 3));
        assert_eq!(rt; code(store.file(b"a", b"bcd")), 0);
        assert_eq!(rt; code(store.file(b"e", b"f")), 22);
        assert_eq!(rt; code(store.file(b"e", b"")), 0);
        assert!(rt; !store.fits(0, 0));
        assert_eq!(rt; code(store.file(b"a", b"")), 21);
        Ok(())
    }

    #[test]
    fn get_leaves_the_rest_of_the_buffer(rt: HostRuntime) -> Result<(), Fail> {
        let heap = rt.alloc();
        let mut buffer = vec![in heap; 0; 100]?;
        let mut store = LineStore::new(buffer.as_mut_slice());
        assert_eq!(rt; code(store.file(b"a", b"\x00\xff")), 0);
        let mut out = vec![in heap; 0xaa; BODY_MAX + 1]?;
        assert_eq!(rt; code(store.get(b"b", out.as_mut_slice())), 23);
        assert_eq!(rt; out.first().copied(), Some(0xaa));
        assert_eq!(rt; code(store.get(b"a", out.as_mut_slice())), 0);
        let mut wanted = vec![in heap; 0xaa; BODY_MAX + 1]?;
        assert!(rt; wanted.len() > 2);
        wanted[0] = 0;
        wanted[1] = 0xff;
        assert_eq!(rt; out, wanted);
        Ok(())
    }

    #[test]
    fn a_text_is_opened_again(rt: HostRuntime) -> Result<(), Fail> {
        let heap = rt.alloc();
        let mut buffer = Vec::from_slice(heap, b"61 6263\n64 \n!")?;
        let mut store = LineStore::new(buffer.as_mut_slice());
        assert_eq!(rt; code(store.open(14)), 1);
        assert_eq!(rt; code(store.open(13)), 12);
        assert!(rt; !store.has(b"a"));
        assert_eq!(rt; code(store.open(12)), 0);
        assert!(rt; store.has(b"a") && store.has(b"d"));
        assert_eq!(rt; code(store.open(11)), 12);
        assert_eq!(rt; store.text(), b"61 6263\n64 \n".as_slice());
        assert_eq!(rt; code(store.open(8)), 0);
        assert!(rt; store.has(b"a") && !store.has(b"d"));
        assert_eq!(rt; code(store.open(0)), 0);
        assert!(rt; !store.has(b"a"));
        Ok(())
    }

    #[test]
    fn texts_that_no_store_has(rt: HostRuntime) -> Result<(), Fail> {
        let heap = rt.alloc();
        let texts: [&[u8]; 12] = [
            b"\n",
            b"61",
            b"61\n",
            b"61 62",
            b"6 62\n",
            b"61 6\n",
            b"61 6A\n",
            b" 62\n",
            b"61  62\n",
            b"20 62\n",
            b"61 62\n61 \n",
            b"61 62\r\n",
        ];
        for text in texts {
            assert_eq!(rt; opening(heap, text)?, 12);
        }
        Ok(())
    }
}
