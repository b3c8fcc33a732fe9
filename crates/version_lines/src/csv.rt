//! CSV as RFC 4180 writes it: which bytes of a record stand in quotes.
ghost use Rattle.std.specs.Prelude.{◌≡◌};
ghost use Rattle.version_lines.specs.Csv.{field_text, is_quoted, is_whole, length_before, next};

/// Where a byte of a record stands.
#[derive(Clone, Copy, Debug)]
pub enum FieldState {
    /// At the beginning of a field.
    Start,
    /// In a field that began with no quote.
    Plain,
    /// Between quotes.
    Quoted,
    /// After a quote in quotes: it ends them, unless it is the first of two.
    Closed,
    /// In a field that goes on after its quotes.
    Broken,
}

impl FieldState {
    /// Returns where the byte after this one stands.
    pub fn next(self, separator: u8, byte: u8) -> FieldState
        ensures { result ≡ next separator self byte }
    {
        match self {
            FieldState::Quoted if byte == b'"' => FieldState::Closed,
            FieldState::Quoted => FieldState::Quoted,
            _ if byte == separator => FieldState::Start,
            FieldState::Start | FieldState::Closed if byte == b'"' => FieldState::Quoted,
            FieldState::Start | FieldState::Plain => FieldState::Plain,
            FieldState::Closed | FieldState::Broken => FieldState::Broken,
        }
    }

    /// Whether it is between quotes.
    pub fn is_quoted(self) -> bool
        ensures { result ≡ is_quoted self }
    {
        matches!(self, FieldState::Quoted)
    }
}

/// Returns how many bytes of a text come before the first `stop` that stands in no quotes.
pub fn length_before(stop: u8, separator: u8, text: &[u8]) -> usize
    ensures { result ≡ length_before stop separator FieldState.Start text.now }
{
    let mut state = FieldState::Start;
    let mut place = 0;
    while place < text.len() {
        let byte = text[place];
        if byte == stop && !state.is_quoted() {
            return place;
        }
        state = state.next(separator, byte);
        place += 1;
    }
    place
}

/// Whether each field that begins with a quote ends with the quote that closes it.
pub fn is_whole(separator: u8, line: &[u8]) -> bool
    ensures { result ≡ is_whole separator FieldState.Start line.now }
{
    let mut state = FieldState::Start;
    for byte in line {
        if *byte == separator && matches!(state, FieldState::Broken) {
            return false;
        }
        state = state.next(separator, *byte);
    }
    !matches!(state, FieldState::Quoted | FieldState::Broken)
}

/// Returns the text of a field: what stands between its quotes, if it has any. Two quotes stay two.
pub fn field_text(field: &[u8]) -> &[u8]
    ensures { result.now ≡ field_text field.now }
{
    match field {
        [b'"', rest @ ..] => &rest[..rest.len().saturating_sub(1)],
        _ => field,
    }
}
