/// The first and the last of consecutive numbers, which are written `1-64`.
pub(crate) fn numbers(text: &str) -> Option<(u8, u8)> {
    let (first, last) = text.split_once('-')?;
    match (first.parse::<u8>(), last.parse::<u8>()) {
        (Ok(first), Ok(last)) => Some((first, last)),
        _ => None,
    }
}
