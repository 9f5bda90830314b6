//! How many words there are. Each pattern stands in a function of its own, so that what is known
//! of it stays out of the proofs of the lines.
ghost use Rattle.std.specs.Prelude.{◌≡◌, ◌==◌, false, [], ◌∷◌, map, length, IfSome, IfNone};

/// The word, if it is one.
pub(crate) fn one_word<'a>(words: &[&'a [u8]]) -> Option<&'a [u8]>
    ensures words { IfSome result (λ one. map (λ word. word.now) words.now ≡ one.now ∷ []) }
    ensures others { IfNone result ((length words.now == 1) ≡ false) }
{
    match words {
        [first] => Some(first),
        _ => None,
    }
}

/// The words, if they are two.
pub(crate) fn two_words<'a>(words: &[&'a [u8]]) -> Option<(&'a [u8], &'a [u8])>
    ensures words { IfSome result (λ two.
        map (λ word. word.now) words.now ≡ two.0.now ∷ two.1.now ∷ []) }
    ensures others { IfNone result ((length words.now == 2) ≡ false) }
{
    match words {
        [first, second] => Some((first, second)),
        _ => None,
    }
}

/// The words, if they are three.
pub(crate) fn three_words<'a>(words: &[&'a [u8]]) -> Option<(&'a [u8], &'a [u8], &'a [u8])>
    ensures words { IfSome result (λ three.
        map (λ word. word.now) words.now ≡ three.0.now ∷ three.1.now ∷ three.2.now ∷ []) }
    ensures others { IfNone result ((length words.now == 3) ≡ false) }
{
    match words {
        [first, second, third] => Some((first, second, third)),
        _ => None,
    }
}

/// The first word and those behind it, if there is one.
pub(crate) fn first_word<'a, 'b>(words: &'b [&'a [u8]]) -> Option<(&'a [u8], &'b [&'a [u8]])>
    ensures words { IfSome result (λ parts. map (λ word. word.now) words.now
        ≡ parts.0.now ∷ map (λ word. word.now) parts.1.now) }
    ensures none { IfNone result (words.now ≡ []) }
{
    match words {
        [] => None,
        [first, others @ ..] => Some((first, others)),
    }
}
