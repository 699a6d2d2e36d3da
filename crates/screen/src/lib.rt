// The curve that levels are printed through, as a table that is proved by one test over all its entries.
#![tactic(auto)]

ghost use Rattle.std.specs.Prelude.{◌≡◌, map};
ghost use Rattle.table.specs.Tables.{IsTable};
ghost use Rattle.screen.specs.Samples.{sample_of};

// The sample of every level from 0 to 255.
const SAMPLES: [u8; 256] = [
    0, 5, 9, 14, 18, 23, 27, 30, 34, 37, 40, 43, 46, 48, 51, 53, 55, 58, 60, 62, 64, 66, 68, 70,
    72, 73, 75, 77, 78, 80, 82, 83, 85, 86, 88, 89, 91, 92, 94, 95, 97, 98, 99, 101, 102, 103, 104,
    106, 107, 108, 109, 111, 112, 113, 114, 115, 116, 118, 119, 120, 121, 122, 123, 124, 125, 126,
    127, 128, 129, 130, 131, 132, 133, 134, 135, 136, 137, 138, 139, 140, 141, 142, 143, 144, 145,
    146, 147, 147, 148, 149, 150, 151, 152, 153, 154, 154, 155, 156, 157, 158, 159, 159, 160, 161,
    162, 163, 164, 164, 165, 166, 167, 168, 168, 169, 170, 171, 171, 172, 173, 174, 174, 175, 176,
    177, 177, 178, 179, 180, 180, 181, 182, 182, 183, 184, 185, 185, 186, 187, 187, 188, 189, 189,
    190, 191, 191, 192, 193, 193, 194, 195, 195, 196, 197, 197, 198, 199, 199, 200, 201, 201, 202,
    203, 203, 204, 205, 205, 206, 206, 207, 208, 208, 209, 209, 210, 211, 211, 212, 213, 213, 214,
    214, 215, 216, 216, 217, 217, 218, 218, 219, 220, 220, 221, 221, 222, 223, 223, 224, 224, 225,
    225, 226, 227, 227, 228, 228, 229, 229, 230, 230, 231, 232, 232, 233, 233, 234, 234, 235, 235,
    236, 236, 237, 238, 238, 239, 239, 240, 240, 241, 241, 242, 242, 243, 243, 244, 244, 245, 245,
    246, 246, 247, 247, 248, 248, 249, 249, 250, 251, 251, 252, 252, 253, 253, 254, 254, 255, 255,
];

// The table by value: a loop reads it once and looks up in it.
#[tactic(auto, using(table::proofs::Entries::table), unfolding(crate::specs::Samples::sample_of, crate::specs::Samples::curve_test, table::specs::Tables::greatest))]
pub fn sample_table() -> [u8; 256]
    ensures { IsTable 256 sample_of result }
{
    SAMPLES
}

// Levels turned into their samples, each where it stands. No program prints through it yet. By the index: of `for level in levels` no
// edit that was tried and leaves the first level as it is shows the contract.
#[tactic(auto, using(crate::proofs::Printing::printing_all, crate::proofs::Printing::printing_done))]
pub fn through_curve(levels: &mut [u8])
    ensures { levels.new ≡ map sample_of levels.old }
{
    let samples = sample_table();
    for i in 0..levels.len() {
        levels[i] = samples[levels[i] as usize];
    }
}
