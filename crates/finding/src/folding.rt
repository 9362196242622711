//! Letters without case and marks.

ghost use Rattle.std.specs.Prelude.{◌≡◌, ◌<◌, ◌∷◌, [], MatchOption, length};
ghost use Rattle.finding.specs.Finding.{fold, folded};

/// What the characters from U+00C0 to U+017F become, in order. The two that are no letters stay.
#[rattlefmt::skip]
pub const LETTERS: [char; 192] = [
    'a', 'a', 'a', 'a', 'a', 'a', 'a', 'c', 'e', 'e', 'e', 'e', 'i', 'i', 'i', 'i',
    'd', 'n', 'o', 'o', 'o', 'o', 'o', '×', 'o', 'u', 'u', 'u', 'u', 'y', 't', 's',
    'a', 'a', 'a', 'a', 'a', 'a', 'a', 'c', 'e', 'e', 'e', 'e', 'i', 'i', 'i', 'i',
    'd', 'n', 'o', 'o', 'o', 'o', 'o', '÷', 'o', 'u', 'u', 'u', 'u', 'y', 't', 'y',
    'a', 'a', 'a', 'a', 'a', 'a', 'c', 'c', 'c', 'c', 'c', 'c', 'c', 'c', 'd', 'd',
    'd', 'd', 'e', 'e', 'e', 'e', 'e', 'e', 'e', 'e', 'e', 'e', 'g', 'g', 'g', 'g',
    'g', 'g', 'g', 'g', 'h', 'h', 'h', 'h', 'i', 'i', 'i', 'i', 'i', 'i', 'i', 'i',
    'i', 'i', 'i', 'i', 'j', 'j', 'k', 'k', 'k', 'l', 'l', 'l', 'l', 'l', 'l', 'l',
    'l', 'l', 'l', 'n', 'n', 'n', 'n', 'n', 'n', 'n', 'n', 'n', 'o', 'o', 'o', 'o',
    'o', 'o', 'o', 'o', 'r', 'r', 'r', 'r', 'r', 'r', 's', 's', 's', 's', 's', 's',
    's', 's', 't', 't', 't', 't', 't', 't', 'u', 'u', 'u', 'u', 'u', 'u', 'u', 'u',
    'u', 'u', 'u', 'u', 'w', 'w', 'y', 'y', 'y', 'z', 'z', 'z', 'z', 'z', 'z', 's',
];

/// Folds a letter.
#[tactic(auto, unfolding(crate::specs::Finding::fold))]
fn fold_letter(letter: char) -> char
    ensures { result ≡ fold letter }
{
    match letter {
        'A'..='Z' => letter.to_ascii_lowercase(),
        '\u{C0}'..='\u{17F}' => LETTERS[letter as usize - 0xC0],
        _ => letter,
    }
}

/// Takes the first letter off a text, and folds it.
pub(crate) fn take_letter(text: &str) -> Option<(char, &str)>
    ensures next { MatchOption result (folded text.now ≡ [])
        (λ x. folded text.now ≡ x.0 ∷ folded x.1.now) }
    ensures shorter { MatchOption result (length text.now ≡ 0)
        (λ x. length x.1.now < length text.now) }
{
    let mut rest = text.chars();
    let letter = rest.next()?;
    Some((fold_letter(letter), rest.as_str()))
}
