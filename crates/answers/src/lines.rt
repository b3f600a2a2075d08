// The lines of cases.

/// What a line of cases says.
#[derive(Clone, Copy)]
pub(crate) enum Line<'a> {
    Remark,
    Case(&'a str),
    Words(&'a str),
    With(&'a str),
    Fails(&'a str),
    Damage(&'a str),
    File(&'a str),
    Script,
    Shared(&'a str),
    Text(&'a str),
    Bytes(&'a str),
    Times(&'a str),
    Numbered(&'a str),
    Unknown,
}

impl<'a> Line<'a> {
    pub(crate) fn of(text: &'a str) -> Line<'a> {
        if text.is_empty() || text.starts_with('#') {
            return Line::Remark;
        }
        if let Some(text) = text.strip_prefix('|') {
            return Line::Text(text);
        }
        if let Some(text) = text.strip_prefix('>') {
            return Line::Bytes(text);
        }
        Line::of_word(text)
    }

    // What a line says by the word that it begins with.
    fn of_word(text: &'a str) -> Line<'a> {
        let (word, rest) = text.split_once(' ').unwrap_or((text, ""));
        match word {
            "case" => Line::Case(rest),
            "words" => Line::Words(rest),
            "with" => Line::With(rest),
            "fails" => Line::Fails(rest),
            "damage" => Line::Damage(rest),
            "file" => Line::File(rest),
            "script" => Line::Script,
            "shared" => Line::Shared(rest),
            "times" => Line::Times(rest),
            "numbered" => Line::Numbered(rest),
            _ => Line::Unknown,
        }
    }

    /// Whether the line ends the case before it.
    pub(crate) fn begins_files(self) -> bool {
        matches!(self, Line::Case(_) | Line::Shared(_))
    }
}
