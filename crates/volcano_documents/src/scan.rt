//! Where the parts of a JSON text begin and end. Of a text that is no JSON the answers mean nothing, but each lies within it.

ghost use Rattle.std.specs.Prelude.{◌≡◌, ◌≤◌, ◌<◌, length, slice_index, true, IfSome};
ghost use Rattle.volcano_documents.specs.Spans.{is_blank, IsMemberSpan, IsItemSpan};

/// Where a member of an object stands.
#[derive(Clone, Copy)]
pub struct MemberSpan {
    /// Where its name begins, with the quote.
    pub name: usize,
    /// Behind the name's last quote.
    pub name_end: usize,
    /// Where its value begins.
    pub value: usize,
    /// Behind the value, and the comma behind that.
    pub next: usize,
}

/// Where an item of a list stands.
#[derive(Clone, Copy)]
pub struct ItemSpan {
    /// Where it begins.
    pub value: usize,
    /// Behind it, and the comma behind that.
    pub next: usize,
}

// What has been seen of a list or an object: how many brackets are open, and whether a text is.
#[derive(Clone, Copy)]
struct Nest {
    depth: usize,
    is_in_text: bool,
    is_escaped: bool,
}

impl Nest {
    fn new() -> Nest {
        Nest {
            depth: 0,
            is_in_text: false,
            is_escaped: false,
        }
    }

    // What is seen behind one more byte.
    fn after(self, byte: u8) -> Nest {
        if self.is_in_text {
            return self.after_in_text(byte);
        }
        match byte {
            b'"' => Nest {
                is_in_text: true,
                ..self
            },
            b'[' | b'{' => Nest {
                depth: self.depth.saturating_add(1),
                ..self
            },
            b']' | b'}' => Nest {
                depth: self.depth.saturating_sub(1),
                ..self
            },
            _ => self,
        }
    }

    // The same within a text.
    fn after_in_text(self, byte: u8) -> Nest {
        let is_escape = byte == b'\\' && !self.is_escaped;
        let is_end = byte == b'"' && !self.is_escaped;
        Nest {
            is_in_text: !is_end,
            is_escaped: is_escape,
            ..self
        }
    }

    // Whether all that was opened is closed.
    fn is_closed(self) -> bool {
        self.depth == 0 && !self.is_in_text
    }
}

/// Whether a byte is a blank between the parts of a JSON text.
pub fn is_space(byte: u8) -> bool
    ensures { result ≡ is_blank byte }
{
    byte == b' ' || byte == b'\t' || byte == b'\n' || byte == b'\r'
}

// Whether a number or a word ends before a byte.
fn ends_word(byte: u8) -> bool {
    is_space(byte) || matches!(byte, b',' | b']' | b'}' | b':')
}

/// Whether this byte stands at an offset.
pub fn is_at(text: &[u8], at: usize, byte: u8) -> bool
    ensures within { result ≡ true → at < length text.now }
    ensures byte { result ≡ true → slice_index text.now at ≡ byte }
{
    at < text.len() && text[at] == byte
}

/// Where the blanks at an offset end.
pub fn skip_space(text: &[u8], at: usize) -> usize
    requires { at ≤ length text.now }
    ensures behind { at ≤ result }
    ensures within { result ≤ length text.now }
{
    for i in at..text.len() {
        if !is_space(text[i]) {
            return i;
        }
    }
    text.len()
}

// Behind the comma at an offset, if there is one behind blanks.
fn skip_comma(text: &[u8], at: usize) -> usize
    requires { at ≤ length text.now }
    ensures behind { at ≤ result }
    ensures within { result ≤ length text.now }
{
    let comma = skip_space(text, at);
    if is_at(text, comma, b',') {
        comma + 1
    } else {
        comma
    }
}

/// Behind the number or the word at an offset.
fn skip_word(text: &[u8], at: usize) -> usize
    requires { at < length text.now }
    ensures behind { at < result }
    ensures within { result ≤ length text.now }
{
    for i in at + 1..text.len() {
        if ends_word(text[i]) {
            return i;
        }
    }
    text.len()
}

/// Behind the text, the list or the object at an offset.
fn skip_nest(text: &[u8], at: usize) -> usize
    requires { at < length text.now }
    ensures behind { at < result }
    ensures within { result ≤ length text.now }
{
    let mut nest = Nest::new();
    for i in at..text.len() {
        nest = nest.after(text[i]);
        if nest.is_closed() {
            return i + 1;
        }
    }
    text.len()
}

/// Behind the value at an offset.
pub fn skip_value(text: &[u8], at: usize) -> usize
    requires { at < length text.now }
    ensures behind { at < result }
    ensures within { result ≤ length text.now }
{
    match text[at] {
        b'"' | b'[' | b'{' => skip_nest(text, at),
        _ => skip_word(text, at),
    }
}

/// The member that begins at an offset, behind blanks.
pub fn next_member(text: &[u8], at: usize) -> Option<MemberSpan>
    requires { at ≤ length text.now }
    ensures { IfSome result (IsMemberSpan text.now at) }
{
    let name = skip_space(text, at);
    if !is_at(text, name, b'"') {
        return None;
    }
    let name_end = skip_nest(text, name);
    let colon = skip_space(text, name_end);
    if !is_at(text, colon, b':') {
        return None;
    }
    let value = skip_space(text, colon + 1);
    if value >= text.len() {
        return None;
    }
    let next = skip_comma(text, skip_value(text, value));
    Some(MemberSpan {
        name,
        name_end,
        value,
        next,
    })
}

/// The item that begins at an offset, behind blanks.
pub fn next_item(text: &[u8], at: usize) -> Option<ItemSpan>
    requires { at ≤ length text.now }
    ensures { IfSome result (IsItemSpan text.now at) }
{
    let value = skip_space(text, at);
    if value >= text.len() || is_at(text, value, b']') {
        return None;
    }
    let next = skip_comma(text, skip_value(text, value));
    Some(ItemSpan { value, next })
}
