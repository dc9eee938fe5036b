/// How two values stand to each other, by their `<` and `==`.
pub(crate) fn order_of<T: Ord + Copy>(left: T, right: T) -> &'static str {
    if left < right {
        "Less"
    } else if left == right {
        "Equal"
    } else {
        "Greater"
    }
}
