// A place of a pattern whose neighbours are asked for: it is one of the pattern's places, and an entry can hold it. A type alone.

ghost use Rattle.std.specs.Prelude.{◌<◌, ◌≤◌, length};
ghost use Rattle.order.specs.Sizes.{pattern_limit};

#[derive(Drop)]
pub(crate) struct Site<'a, T> {
    pub pattern: &'a [T],
    pub j: usize,
    pub ghost inside: { j < length pattern.now },
    pub ghost limit: { length pattern.now ≤ pattern_limit },
}
