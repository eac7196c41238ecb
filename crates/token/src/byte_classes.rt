// The table of byte classes: "a table of 256 class numbers, one for each byte value" (document 02, Req 06).

ghost use Rattle.std.specs.Prelude.{◌≡◌, IsSome};
ghost use Rattle.token.specs.Classes.{class_number, ClassTable};

// The table by itself.
pub fn class_table() -> [u8; 256]
    ensures { ClassTable result }
{
    NUMBERS
}

// The table, made where reading begins and handed down: where it is read as a constant, it is copied at each use.
#[derive(Clone, Copy)]
pub struct Classes {
    numbers: [u8; 256],
    ghost right: { ClassTable numbers },
}

impl Classes {
    pub fn new() -> Classes {
        Classes { numbers: NUMBERS }
    }

    // The same of a table that a caller has, if it is right.
    pub fn of_table(table: &[u8]) -> Option<Classes>
        ensures right { ClassTable table.now → IsSome result }
        ensures wrong { IsSome result → ClassTable table.now }
    {
        let classes = Classes::new();
        if table.len() != 256 {
            return None;
        }
        for b in 0..256usize {
            if table[b] != classes.of(b as u8) {
                return None;
            }
        }
        Some(classes)
    }

    // The number of a byte's class.
    pub fn of(&self, b: u8) -> u8
        ensures { result ≡ class_number b }
    {
        self.numbers[b as usize]
    }
}

// 0 layout, 1 what begins a comment, 2 and 3 the parentheses, 4 refused; and of the bytes that make atoms 5 the `-`, which stands in no
// name, 6 the digits, which begin none, and 7 the letters and `_`.
const NUMBERS: [u8; 256] = [
    4, // 00
    4, // 01
    4, // 02
    4, // 03
    4, // 04
    4, // 05
    4, // 06
    4, // 07
    4, // 08
    0, // 09 tab
    0, // 0A line end
    4, // 0B
    4, // 0C
    0, // 0D carriage return
    4, // 0E
    4, // 0F
    4, // 10
    4, // 11
    4, // 12
    4, // 13
    4, // 14
    4, // 15
    4, // 16
    4, // 17
    4, // 18
    4, // 19
    4, // 1A
    4, // 1B
    4, // 1C
    4, // 1D
    4, // 1E
    4, // 1F
    0, // 20 space
    4, // 21 !
    4, // 22 "
    4, // 23 #
    4, // 24 $
    4, // 25 %
    4, // 26 &
    4, // 27 '
    2, // 28 (
    3, // 29 )
    4, // 2A *
    4, // 2B +
    4, // 2C ,
    5, // 2D -
    4, // 2E .
    4, // 2F /
    6, // 30 0
    6, // 31 1
    6, // 32 2
    6, // 33 3
    6, // 34 4
    6, // 35 5
    6, // 36 6
    6, // 37 7
    6, // 38 8
    6, // 39 9
    4, // 3A :
    1, // 3B ;
    4, // 3C <
    4, // 3D =
    4, // 3E >
    4, // 3F ?
    4, // 40 @
    7, // 41 A
    7, // 42 B
    7, // 43 C
    7, // 44 D
    7, // 45 E
    7, // 46 F
    7, // 47 G
    7, // 48 H
    7, // 49 I
    7, // 4A J
    7, // 4B K
    7, // 4C L
    7, // 4D M
    7, // 4E N
    7, // 4F O
    7, // 50 P
    7, // 51 Q
    7, // 52 R
    7, // 53 S
    7, // 54 T
    7, // 55 U
    7, // 56 V
    7, // 57 W
    7, // 58 X
    7, // 59 Y
    7, // 5A Z
    4, // 5B [
    4, // 5C \
    4, // 5D ]
    4, // 5E ^
    7, // 5F _
    4, // 60 `
    7, // 61 a
    7, // 62 b
    7, // 63 c
    7, // 64 d
    7, // 65 e
    7, // 66 f
    7, // 67 g
    7, // 68 h
    7, // 69 i
    7, // 6A j
    7, // 6B k
    7, // 6C l
    7, // 6D m
    7, // 6E n
    7, // 6F o
    7, // 70 p
    7, // 71 q
    7, // 72 r
    7, // 73 s
    7, // 74 t
    7, // 75 u
    7, // 76 v
    7, // 77 w
    7, // 78 x
    7, // 79 y
    7, // 7A z
    4, // 7B {
    4, // 7C |
    4, // 7D }
    4, // 7E ~
    4, // 7F
    4, // 80
    4, // 81
    4, // 82
    4, // 83
    4, // 84
    4, // 85
    4, // 86
    4, // 87
    4, // 88
    4, // 89
    4, // 8A
    4, // 8B
    4, // 8C
    4, // 8D
    4, // 8E
    4, // 8F
    4, // 90
    4, // 91
    4, // 92
    4, // 93
    4, // 94
    4, // 95
    4, // 96
    4, // 97
    4, // 98
    4, // 99
    4, // 9A
    4, // 9B
    4, // 9C
    4, // 9D
    4, // 9E
    4, // 9F
    4, // A0
    4, // A1
    4, // A2
    4, // A3
    4, // A4
    4, // A5
    4, // A6
    4, // A7
    4, // A8
    4, // A9
    4, // AA
    4, // AB
    4, // AC
    4, // AD
    4, // AE
    4, // AF
    4, // B0
    4, // B1
    4, // B2
    4, // B3
    4, // B4
    4, // B5
    4, // B6
    4, // B7
    4, // B8
    4, // B9
    4, // BA
    4, // BB
    4, // BC
    4, // BD
    4, // BE
    4, // BF
    4, // C0
    4, // C1
    4, // C2
    4, // C3
    4, // C4
    4, // C5
    4, // C6
    4, // C7
    4, // C8
    4, // C9
    4, // CA
    4, // CB
    4, // CC
    4, // CD
    4, // CE
    4, // CF
    4, // D0
    4, // D1
    4, // D2
    4, // D3
    4, // D4
    4, // D5
    4, // D6
    4, // D7
    4, // D8
    4, // D9
    4, // DA
    4, // DB
    4, // DC
    4, // DD
    4, // DE
    4, // DF
    4, // E0
    4, // E1
    4, // E2
    4, // E3
    4, // E4
    4, // E5
    4, // E6
    4, // E7
    4, // E8
    4, // E9
    4, // EA
    4, // EB
    4, // EC
    4, // ED
    4, // EE
    4, // EF
    4, // F0
    4, // F1
    4, // F2
    4, // F3
    4, // F4
    4, // F5
    4, // F6
    4, // F7
    4, // F8
    4, // F9
    4, // FA
    4, // FB
    4, // FC
    4, // FD
    4, // FE
    4, // FF
];
