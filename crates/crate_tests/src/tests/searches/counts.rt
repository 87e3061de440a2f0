//! How often searches probe their table, store to it, and evaluate. The same search in plain Rust does
//! so as often, on the same positions.

ghost use Rattle.std.specs.Prelude.{◌≡◌};

use super::super::worked::{Discs, pos_of, task_of};
use bound_table::{Advice, BoundTable, Bounds, Range};
use endgame_search::{Task, solve};
use othello_bits::Pos;
use othello_rules::{Scoring, Side};
use std::cell::Cell;
use std::test::Fail;

// A table that counts its probes and stores, and the evaluations.
#[derive(Drop)]
struct Counter {
    table: BoundTable,
    probes: Cell<u32>,
    stores: Cell<u32>,
    evaluations: Cell<u32>,
}

impl Bounds for Counter {
    ghost scoring = { λ counter. counter.table.scoring };

    fn scoring(&self) -> Scoring {
        self.table.scoring()
    }

    fn probe(&self, position: &Pos) -> Option<Range> {
        self.probes.set(self.probes.get().wrapping_add(1));
        self.table.probe(position)
    }

    fn store(&self, position: &Pos, range: Range) {
        self.stores.set(self.stores.get().wrapping_add(1));
        self.table.store(position, range);
    }
}

impl Advice for Counter {
    fn note_evaluation(&self) {
        self.evaluations.set(self.evaluations.get().wrapping_add(1));
    }
}

// The probes, the stores and the evaluations of a first solve, and the probes of a second one.
fn count(counter: &Counter, task: Task) -> [u32; 4]
    requires { task.scoring ≡ counter.now.table.scoring }
{
    let _ = solve(counter, task);
    let (probes, stores) = (counter.probes.replace(0), counter.stores.get());
    let evaluations = counter.evaluations.get();
    let _ = solve(counter, task);
    [probes, stores, evaluations, counter.probes.get()]
}

#[test]
fn searches_do_as_much_work_as_in_plain_rust(rt: HostRuntime) -> Result<(), Fail> {
    for i in 0..POSITIONS.len() {
        for j in 0..Scoring::ALL.len() {
            let scoring = Scoring::ALL[j];
            let task = task_of(&rt, pos_of(&rt, POSITIONS[i], Side::Black), scoring);
            let counter = Counter {
                table: BoundTable::new(rt.alloc(), 4_096, scoring)?,
                probes: Cell::new(0),
                stores: Cell::new(0),
                evaluations: Cell::new(0),
            };
            assert_eq!(rt; count(&counter, task), COUNTS[i][j]);
        }
    }
    Ok(())
}

// The mover's discs and the opponent's in two positions for each number of empty squares from 8 to 17,
// in one or two for each from 18 to 20, and in one with 22.
const POSITIONS: [Discs; 26] = [
    (0x3f7b_3a00_3a5a_2e0f, 0xc084_85ff_4525_1110),
    (0x1000_6203_0f19_bf41, 0xa5bf_9cfc_70e6_401e),
    (0x2a40_8083_8b87_8ebf, 0x1f_5f7c_7478_7040),
    (0x143d_1d97_af17_b111, 0xe3c2_e268_5048_4602),
    (0x7238_14ca_dcd8_c1c1, 0x804_2a35_2327_3e3e),
    (0x80_0101_20dc_fa2e, 0x3d5e_7cfe_df23_0510),
    (0x9e3e_be1e_3e00_2040, 0x4041_4061_c1ff_d83c),
    (0x3c_3010_c0f0_b820, 0x7f03_cfef_3f0f_0604),
    (0x6060_512f_1f25_448c, 0x8e8c_a8d0_e05a_ba03),
    (0xc1c_9d6f_f4d8_1c40, 0x2060_6090_0a27_e23f),
    (0x8_c71b_1b05_41c0, 0xfff4_3864_e0f8_9030),
    (0x20e0_4161_74f4_b0f0, 0x4004_bc1e_8b0b_0f0f),
    (0x6fb8_a7f8_abef_ffd7, 0x4_0804_0010_0000),
    (0xfdff_fff6_cc96_6dd5, 0x1_0001_0200),
    (0xf666_bbec_fb3d_bfb9, 0x1_0400_0000_4002),
    (0x4_2040_0000, 0x7fa4_fda9_9f9f_b7fd),
    (0xf5f5_83bb_af3f_3e7d, 0x800_0800_00c0_0000),
    (0x6fe7_f257_df3b_e67d, 0x18_0000_0040_0000),
    (0x7bfe_df84_9f4b_d7fd, 0x2_2000_0000),
    (0x4ffc_ae37_fbd3_f9f6, 0x2_0000_0000_0200),
    (0x40_0000_0004, 0xf2f4_f8ba_fafe_fcf8),
    (0xfcfc_f8f8_fcfe_c6a0, 0x200_3810),
    (0x2929_b5ca_9513_0704, 0x606_0a34_282c_3828),
    (0xff7f_df5f_d81c_1a11, 0x2020_2020_0000),
    (0x41c_1018_0400_0000, 0x1_0707_7bff_7fff),
    (0x246c_eeee_fefe_f980, 0x10_1010_0000_0000),
];

// Of each position the counts under Winner, Discs and Sign. `bench/run counts` prints them. With fewer
// than 10 empty squares nothing is stored.
const COUNTS: [[[u32; 4]; 3]; 26] = [
    [[899, 0, 0, 899], [899, 0, 0, 899], [642, 0, 0, 642]],
    [[625, 0, 0, 625], [625, 0, 0, 625], [563, 0, 0, 563]],
    [[936, 0, 0, 936], [936, 0, 0, 936], [848, 0, 0, 848]],
    [[2142, 0, 0, 2142], [2142, 0, 0, 2142], [208, 0, 0, 208]],
    [[1098, 2, 0, 397], [1098, 2, 0, 397], [513, 2, 0, 455]],
    [[2522, 2, 0, 506], [2522, 2, 0, 506], [784, 2, 0, 757]],
    [[2225, 22, 0, 10], [2225, 22, 0, 10], [1589, 18, 0, 10]],
    [[4746, 36, 0, 6], [4746, 36, 0, 6], [202, 10, 0, 6]],
    [[4675, 34, 14, 9], [4675, 34, 14, 9], [3557, 30, 14, 9]],
    [[3144, 30, 10, 7], [3144, 30, 10, 7], [1316, 21, 10, 7]],
    [[4679, 72, 121, 22], [4679, 72, 121, 22], [2033, 55, 83, 9]],
    [[4009, 75, 74, 202], [4009, 75, 74, 202], [2777, 63, 68, 17]],
    [[2737, 66, 129, 7], [3219, 83, 129, 7], [5014, 59, 111, 7]],
    [[1990, 70, 64, 4], [2132, 64, 58, 4], [488, 21, 28, 4]],
    [[2038, 78, 132, 5], [2038, 78, 132, 5], [1711, 43, 87, 5]],
    [[69, 26, 141, 5], [394, 74, 202, 5], [69, 26, 141, 5]],
    [[4153, 117, 149, 5], [4153, 117, 149, 5], [1337, 47, 82, 5]],
    [[371, 79, 109, 6], [1421, 182, 232, 6], [887, 90, 109, 6]],
    [[69, 21, 55, 5], [861, 67, 103, 5], [1661, 47, 82, 5]],
    [[76, 25, 41, 5], [91, 30, 42, 5], [93, 21, 34, 5]],
    [
        [126074, 774, 1331, 5],
        [126078, 774, 1331, 5],
        [76349, 628, 1061, 5],
    ],
    [
        [4100, 378, 1304, 8],
        [13538, 563, 2095, 8],
        [21550, 1144, 2533, 8],
    ],
    [
        [153412, 2702, 11900, 9],
        [153412, 2702, 11900, 9],
        [153412, 2702, 11900, 9],
    ],
    [[194, 43, 281, 5], [4428, 168, 1476, 5], [2475, 31, 409, 5]],
    [
        [3295, 234, 4711, 5],
        [5912, 405, 7800, 5],
        [1007, 92, 1344, 5],
    ],
    [[30, 7, 242, 4], [754, 119, 2127, 4], [322, 30, 1193, 4]],
];
