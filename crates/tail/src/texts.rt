// Texts without a character at one end.
ghost use Rattle.std.specs.Prelude.{◌≡◌, ◌<◌};
ghost use Rattle.std.specs.Str.{chars};
ghost use Rattle.tail.specs.Texts.{without_first, without_last};

// Without one such character at the start, if it has one there.
pub fn without_first(text: &str, c: char) -> &str
    requires { c < 128 }
    ensures { chars result.now ≡ without_first c (chars text.now) }
{
    text.strip_prefix(c).unwrap_or(text)
}

// Without one such character at the end, if it has one there.
pub fn without_last(text: &str, c: char) -> &str
    requires { c < 128 }
    ensures { chars result.now ≡ without_last c (chars text.now) }
{
    text.strip_suffix(c).unwrap_or(text)
}
