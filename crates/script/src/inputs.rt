// The inputs of a script.
ghost use Rattle.std.specs.Prelude.{◌≡◌, ◌^◌, min};

// How many inputs so many players have, of whom there are at most three.
pub fn count_inputs(players: u8) -> u8
    ensures { result ≡ 2 ^ min players 3 }
{
    1 << players.min(3)
}
