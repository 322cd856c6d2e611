// The header of an image: questions 1 to 3 of the check, and the parts that the six tables are.
#![tactic(auto)]

ghost use Rattle.std.specs.Prelude.{◌≡◌, ◌+◌, ◌≤◌, length};
ghost use Rattle.header.specs.Header.{version_of, table_from, tables_of, header_of, part_of};

// Where a table's rows stand in the image.
#[derive(Clone, Copy)]
pub struct Table {
    pub start: usize,
    pub end: usize,
}

#[derive(Clone, Copy)]
pub struct Tables {
    pub types: Table,
    pub fields: Table,
    pub variables: Table,
    pub procedures: Table,
    pub nodes: Table,
    pub statements: Table,
}

// The table whose count stands at a byte, unless the count is out of bounds or the image too short.
fn table_from(image: &[u8], at: usize, low: usize, high: usize) -> Option<Table>
    requires { at ≤ length image.now }
    ensures { result ≡ table_from image.now at low high }
{
    if image.len() < at + 2 {
        return None;
    }
    let n = image::number_at(image, at) as usize;
    if n < low {
        return None;
    }
    if high < n {
        return None;
    }
    let start = at + 2;
    let end = start + n * 8;
    if image.len() < end {
        return None;
    }
    Some(Table { start, end })
}

// Question 3 of an image of a version.
#[tactic(auto, unfolding(crate::specs::Header::tables_of, crate::specs::Header::then_table))]
fn tables_of(version: u8, image: &[u8]) -> Option<Tables>
    requires { (version ≡ version_of image.now) × (5 ≤ length image.now) }
    ensures { result ≡ tables_of image.now }
{
    let scalars = image::scalar_rows(version) as usize;
    let types = table_from(image, 5, scalars, 64)?;
    let fields = table_from(image, types.end, 0, 256)?;
    let variables = table_from(image, fields.end, 0, 256)?;
    let procedures = table_from(image, variables.end, 1, 64)?;
    let nodes = table_from(image, procedures.end, 0, 2048)?;
    let statements = table_from(image, nodes.end, 1, 1024)?;
    if statements.end != image.len() {
        return None;
    }
    Some(Tables {
        types,
        fields,
        variables,
        procedures,
        nodes,
        statements,
    })
}

// Questions 1 to 3: the six tables, or the question that fails, by the number that document 01 has for it.
pub fn header(image: &[u8]) -> Result<Tables, u8>
    ensures { result ≡ header_of image.now }
{
    if image.len() == 0 {
        return Err(1);
    }
    let version = image[0];
    if version != 1 {
        return Err(1);
    }
    if image.len() < 5 {
        return Err(2);
    }
    let length = image::word_at(image, 1) as usize;
    if length != image.len() {
        return Err(2);
    }
    tables_of(version, image).ok_or(3)
}

// A table's rows, as a part of the image.
pub fn part(image: &[u8], t: Table) -> &[u8]
    ensures { result.now ≡ part_of image.now t }
{
    let start = t.start;
    let end = t.end;
    if end < start {
        return &image[..0];
    }
    if image.len() < end {
        return &image[..0];
    }
    &image[start..end]
}
