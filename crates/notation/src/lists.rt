// Lists to work on, each with the same value in every place.
ghost use Rattle.std.specs.Prelude.{◌≡◌, length};

// A list of N places. The contract gives the length alone, so that no proof goes through a long list.
pub fn filled<T: Copy, const N: usize>(value: T) -> [T; N]
    ensures { N ≡ length result }
{
    [value; N]
}
