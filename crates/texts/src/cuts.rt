ghost use Rattle.std.specs.Prelude.{◌≡◌, ◌≢◌, ◌<◌, IfSome, length, ◌∷◌, [], ◌==◌, option_map, count_by, position, nat_lt};
ghost use Rattle.texts.specs.Parts.{parts, parts_left};

fn first_mark(text: &[u8], mark: u8) -> Option<usize>
    ensures { result ≡ position (λ b. b == mark) text.now }
{
    text.iter().position(|b| *b == mark)
}

fn count_marks(text: &[u8], mark: u8) -> usize
    ensures { result ≡ count_by (λ b. b == mark) text.now }
{
    text.iter().filter(|b| **b == mark).count()
}

/// The part before the first mark, and what stands behind the mark, if there is one.
pub fn first_part(text: &[u8], mark: u8) -> (&[u8], Option<&[u8]>)
    ensures value { parts mark text.now
        ≡ result.0.now ∷ parts_left mark (option_map (λ t. t.now) result.1) }
    ensures shorter { IfSome result.1 (λ t. length t.now < length text.now) }
{
    match first_mark(text, mark) {
        Some(at) => (&text[..at], Some(&text[at + 1..])),
        None => (text, None),
    }
}

/// Whether more parts than `most` stand round the marks.
pub fn has_more_parts(text: &[u8], mark: u8, most: usize) -> bool
    ensures { result ≡ nat_lt most (length (parts mark text.now)) }
{
    count_marks(text, mark) >= most
}

/// The parts of a text that has exactly two.
pub fn two_parts(text: &[u8], mark: u8) -> Option<(&[u8], &[u8])>
    ensures some { IfSome result (λ p. parts mark text.now ≡ p.0.now ∷ p.1.now ∷ []) }
    ensures none { result ≡ None → length (parts mark text.now) ≢ 2 }
{
    let (first, rest) = first_part(text, mark);
    let (second, more) = first_part(rest?, mark);
    match more {
        None => Some((first, second)),
        Some(_) => None,
    }
}

/// The parts of a text that has exactly three.
pub fn three_parts(text: &[u8], mark: u8) -> Option<(&[u8], &[u8], &[u8])>
    ensures some { IfSome result (λ p. parts mark text.now ≡ p.0.now ∷ p.1.now ∷ p.2.now ∷ []) }
    ensures none { result ≡ None → length (parts mark text.now) ≢ 3 }
{
    let (first, rest) = first_part(text, mark);
    let (second, third) = two_parts(rest?, mark)?;
    Some((first, second, third))
}

/// The parts of a text that has exactly four.
pub fn four_parts(text: &[u8], mark: u8) -> Option<(&[u8], &[u8], &[u8], &[u8])>
    ensures some { IfSome result (λ p. parts mark text.now
        ≡ p.0.now ∷ p.1.now ∷ p.2.now ∷ p.3.now ∷ []) }
    ensures none { result ≡ None → length (parts mark text.now) ≢ 4 }
{
    let (first, rest) = first_part(text, mark);
    let (second, third, fourth) = three_parts(rest?, mark)?;
    Some((first, second, third, fourth))
}

/// The first four parts of a text that has as many, and what stands behind their last mark, if there is one.
pub fn four_or_more(text: &[u8], mark: u8) -> Option<(&[u8], &[u8], &[u8], &[u8], Option<&[u8]>)>
    ensures some { IfSome result (λ p. parts mark text.now ≡ p.0.now ∷ p.1.now ∷ p.2.now ∷ p.3.now
        ∷ parts_left mark (option_map (λ t. t.now) p.4)) }
    ensures none { result ≡ None → length (parts mark text.now) < 4 }
{
    let (first, rest) = first_part(text, mark);
    let (second, rest) = first_part(rest?, mark);
    let (third, rest) = first_part(rest?, mark);
    let (fourth, rest) = first_part(rest?, mark);
    Some((first, second, third, fourth, rest))
}
