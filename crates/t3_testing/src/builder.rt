//! Images as bytes, and a call of the program with one.
use std::alloc::{AllocError, Global};
use std::test::Fail;
use t3_cli::{Status, t3_main};
use t3_io::{SureConsole, SureDepot};

/// The block that ends an image.
pub const END: &[u8] = b"EOF \x00\x00\x00\x00\x00\x00";

/// The entry at address 0, with headers and exception entries of ten bytes.
pub const ENTRY: &[u8] =
    b"ENTP\x10\x00\x00\x00\x01\x00\x00\x00\x00\x00\x0A\x00\x0A\x00\x00\x00\x00\x00\x00\x00\x00\x00";

/// One page of code, of at most 64 bytes.
pub const POOL: &[u8] = b"CPDF\x0A\x00\x00\x00\x01\x00\x01\x00\x01\x00\x00\x00\x40\x00\x00\x00";

/// The function set for input and output.
pub const FUNCTIONS: &[u8] = b"FNSD\x11\x00\x00\x00\x01\x00\x01\x00\x0Etads-io/030007";

/// A method header without arguments, locals and exceptions.
pub const METHOD: &[u8] = b"\x00\x00\x00\x00\x02\x00\x00\x00\x00\x00";

/// A method's body that says 42 and returns.
pub const SAYS_42: &[u8] = b"\x03\x2A\xB1\x01\x00\x51";

/// The header of an image, with 32 reserved bytes 0 and a time of 24 spaces, and these parts after it.
pub fn image(alloc: Global, parts: &[&[u8]]) -> Result<Vec<u8>, AllocError> {
    let mut bytes = Vec::new(alloc);
    bytes.extend_from_slice(b"T3-image\r\n\x1a\x01\x00")?;
    bytes.extend_from_slice(&[0; 32])?;
    bytes.extend_from_slice(&[32; 24])?;
    for part in parts {
        bytes.extend_from_slice(part)?;
    }
    Ok(bytes)
}

/// The first page of code, which has a method of this header and body.
pub fn code_page(alloc: Global, method_header: &[u8], body: &[u8]) -> Result<Vec<u8>, AllocError> {
    let mut bytes = Vec::new(alloc);
    bytes.extend_from_slice(b"CPPG")?;
    let size = u32::try_from(body.len()).unwrap_or(0).wrapping_add(17);
    bytes.extend_from_slice(&size.to_le_bytes())?;
    bytes.extend_from_slice(b"\x01\x00\x01\x00\x00\x00\x00\x00\x00")?;
    bytes.extend_from_slice(method_header)?;
    bytes.extend_from_slice(body)?;
    Ok(bytes)
}

/// An image of these blocks, and of a page with a method of this body.
pub fn code_image(
    alloc: Global,
    blocks: &[&[u8]],
    method_header: &[u8],
    body: &[u8],
) -> Result<Vec<u8>, AllocError> {
    let mut bytes = image(alloc, blocks)?;
    bytes.extend_from_slice(&code_page(alloc, method_header, body)?)?;
    bytes.extend_from_slice(END)?;
    Ok(bytes)
}

/// The words as the program gets them.
pub fn owned(alloc: Global, words: &[&str]) -> Result<Vec<String>, AllocError> {
    let mut all = Vec::new(alloc);
    for word in words {
        all.push(String::from_str(alloc, word)?)?;
    }
    Ok(all)
}

/// The status and what is shown with the file `a.t3`, if there is one.
pub fn outcome(
    alloc: Global,
    words: &[&str],
    file: Option<&[u8]>,
) -> Result<(Status, Vec<u8>), Fail> {
    let mut depot = SureDepot::new(alloc);
    if let Some(bytes) = file {
        depot.keep(b"a.t3", bytes)?;
    }
    let mut console = SureConsole::new(alloc, b"")?;
    let status = t3_main(alloc, &owned(alloc, words)?, &mut depot, &mut console);
    Ok((status, Vec::from_slice(alloc, console.shown())?))
}

/// What stands before the constants in the source of a story that asks: the entry, a page of code and one of
/// constants, of at most 512 bytes each, and the function set for input and output.
const BEFORE_CONSTANTS: &str =
    "image / block \"ENTP\" 1 / entry @main 10 10 0 0 0 0 - / block \"CPDF\" 1 / pool 1 1 512 / \
                      block \"CPDF\" 1 / pool 2 1 512 / block \"FNSD\" 1 / function-set \"tads-io/030007\" / \
                      block \"CPPG\" 1 / page 2 0 0";

/// A story of these constants and a method of two locals and this body.
pub fn story(alloc: Global, constants: &str, body: &str) -> Result<Vec<u8>, Fail> {
    let source = format!(in alloc;
        "{BEFORE_CONSTANTS} / {constants} / block \"CPPG\" 1 / page 1 0 0 / main: / method 0 2 8 0 / {body} / end 0"
    )?;
    let (_, image) = written(alloc, "asm", &lines(alloc, &source)?)?;
    Ok(image)
}

/// The status and what is shown where the image is run with these options and this input.
pub fn played(
    alloc: Global,
    image: &[u8],
    options: &[&str],
    input: &[u8],
) -> Result<(Status, Vec<u8>), Fail> {
    let mut words = Vec::new(alloc);
    words.push("run")?;
    words.push("a.t3")?;
    words.extend_from_slice(options)?;
    let mut depot = SureDepot::new(alloc);
    depot.keep(b"a.t3", image)?;
    let mut console = SureConsole::new(alloc, input)?;
    let status = t3_main(alloc, &owned(alloc, &words)?, &mut depot, &mut console);
    Ok((status, Vec::from_slice(alloc, console.shown())?))
}

/// A method's body as lines that are parted by ` / `, and what its run shows.
pub type Row = (&'static str, &'static str);

/// What stands before the body in the source of a story: the entry, a page of code of at most 128 bytes, and
/// the function set for input and output.
const BEFORE: &str =
    "image / block \"ENTP\" 1 / entry @main 10 10 0 0 0 0 - / block \"CPDF\" 1 / pool 1 1 128 / \
                      block \"FNSD\" 1 / function-set \"tads-io/030007\" / block \"CPPG\" 1 / page 1 0 0 / main:";

/// The number of the first row whose body doesn't show what it says, in a method of so many locals.
pub fn first_unlike(alloc: Global, locals: u8, rows: &[Row]) -> Result<Option<usize>, Fail> {
    for (index, (body, want)) in rows.iter().enumerate() {
        let source = format!(in alloc; "{BEFORE} / method 0 {locals} 2 0 / {body} / end 0")?;
        let (_, image) = written(alloc, "asm", &lines(alloc, &source)?)?;
        let (_, shown) = outcome(alloc, &["run", "a.t3"], Some(&image))?;
        if shown.as_slice() != want.as_bytes() {
            return Ok(Some(index));
        }
    }
    Ok(None)
}

/// What stands before the objects of a source: the entry, a page of code of at most 256 bytes, metaclasses of
/// which the first is that of tads-objects, and the function set for input and output.
const BEFORE_OBJECTS: &str =
    "image / block \"ENTP\" 1 / entry @main 10 10 0 0 0 0 - / block \"CPDF\" 1 / pool 1 1 256 / \
                      block \"MCLD\" 1 / metaclass \"tads-object/030005\" 2 - / metaclass \"root-object\" 2 - / \
                      metaclass \"collection\" 2 - / metaclass \"string\" 2 - / \
                      block \"FNSD\" 1 / function-set \"tads-io/030007\"";

/// What a method of one local and this body shows, in an image with these blocks of objects and symbols.
pub fn shown_beside(alloc: Global, blocks: &str, body: &str) -> Result<Vec<u8>, Fail> {
    let source = format!(in alloc;
        "{BEFORE_OBJECTS} / {blocks} / block \"CPPG\" 1 / page 1 0 0 / main: / method 0 1 4 0 / {body} / end 0"
    )?;
    let (_, image) = written(alloc, "asm", &lines(alloc, &source)?)?;
    let (_, shown) = outcome(alloc, &["run", "a.t3"], Some(&image))?;
    Ok(shown)
}

/// The number of the first row whose body doesn't show what it says beside these blocks.
pub fn first_unlike_beside(
    alloc: Global,
    blocks: &str,
    rows: &[Row],
) -> Result<Option<usize>, Fail> {
    for (index, (body, want)) in rows.iter().enumerate() {
        let shown = shown_beside(alloc, blocks, body)?;
        if shown.as_slice() != want.as_bytes() {
            return Ok(Some(index));
        }
    }
    Ok(None)
}

/// The lines that are parted by ` / `, each ended by a newline.
pub fn lines(alloc: Global, parted: &str) -> Result<Vec<u8>, AllocError> {
    let mut text = Vec::new(alloc);
    for line in parted.split(" / ") {
        text.extend_from_slice(line.as_bytes())?;
        text.push(b'\n')?;
    }
    Ok(text)
}

/// What a command that reads `a.t3` and puts `b.t3` shows, and what it put.
pub fn written(alloc: Global, command: &str, file: &[u8]) -> Result<(Vec<u8>, Vec<u8>), Fail> {
    let mut depot = SureDepot::new(alloc);
    depot.keep(b"a.t3", file)?;
    let mut console = SureConsole::new(alloc, b"")?;
    let words = owned(alloc, &[command, "a.t3", "b.t3"])?;
    let _status = t3_main(alloc, &words, &mut depot, &mut console);
    let put = Vec::from_slice(alloc, depot.file(b"b.t3").unwrap_or(b""))?;
    Ok((Vec::from_slice(alloc, console.shown())?, put))
}
