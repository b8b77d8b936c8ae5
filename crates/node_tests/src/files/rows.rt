//! Texts that are no cluster file, each with its first fault.
use cluster_file::{Fault, Setting};

pub(crate) struct Row {
    pub story: &'static str,
    pub text: &'static [u8],
    pub line: u64,
    pub word: u64,
    pub fault: Fault,
}

pub(crate) static ROWS: [Row; 30] = [
    Row {
        story: "no text",
        text: b"",
        line: 1,
        word: 1,
        fault: Fault::SettingMissing(Setting::Nodes),
    },
    Row {
        story: "an unknown setting",
        text: b"nodes 1 2\nn 2\nK 1\n",
        line: 3,
        word: 1,
        fault: Fault::UnknownSetting,
    },
    Row {
        story: "a setting given twice",
        text: b"nodes 1 2\n# n\nnodes 3\n",
        line: 3,
        word: 1,
        fault: Fault::SettingTwice,
    },
    Row {
        story: "a setting that is missing above another",
        text: b"nodes 1 2\nk 2\n",
        line: 2,
        word: 1,
        fault: Fault::SettingMissing(Setting::N),
    },
    Row {
        story: "a setting that is missing at the end",
        text: b"nodes 1 2\nn 2\nk 1\ndelta 0\nmover 1\nlater\n",
        line: 7,
        word: 1,
        fault: Fault::SettingMissing(Setting::Ticks),
    },
    Row {
        story: "the same, without a line feed at the end",
        text: b"nodes 1 2\nn 2\nk 1",
        line: 4,
        word: 1,
        fault: Fault::SettingMissing(Setting::Delta),
    },
    Row {
        story: "no node",
        text: b"nodes # 1 2\n",
        line: 1,
        word: 2,
        fault: Fault::ValueMissing,
    },
    Row {
        story: "no number",
        text: b"nodes 1 2\nn\n",
        line: 2,
        word: 2,
        fault: Fault::ValueMissing,
    },
    Row {
        story: "two numbers",
        text: b"nodes 1 2\nn 2 2\n",
        line: 2,
        word: 3,
        fault: Fault::WordBehind,
    },
    Row {
        story: "a word that is no number",
        text: b"nodes 1 2 three\n",
        line: 1,
        word: 4,
        fault: Fault::NotANumber,
    },
    Row {
        story: "a sign",
        text: b"nodes 1 2\nn +2\n",
        line: 2,
        word: 2,
        fault: Fault::NotANumber,
    },
    Row {
        story: "a leading zero",
        text: b"nodes 1 02\n",
        line: 1,
        word: 3,
        fault: Fault::NotANumber,
    },
    Row {
        story: "two zeros",
        text: b"nodes 0\nn 00\n",
        line: 2,
        word: 2,
        fault: Fault::NotANumber,
    },
    Row {
        story: "a letter behind more than 32 bits",
        text: b"nodes 4294967296x\n",
        line: 1,
        word: 2,
        fault: Fault::NotANumber,
    },
    Row {
        story: "a node above 255",
        text: b"nodes 255 256\n",
        line: 1,
        word: 3,
        fault: Fault::OutOfRange,
    },
    Row {
        story: "a delta of 33 bits",
        text: b"nodes 1\nn 1\nk 1\ndelta 4294967296\n",
        line: 4,
        word: 2,
        fault: Fault::OutOfRange,
    },
    Row {
        story: "a delta that is no word for it",
        text: b"nodes 1\nn 1\nk 1\ndelta all\n",
        line: 4,
        word: 2,
        fault: Fault::NotANumber,
    },
    Row {
        story: "no ticks",
        text: b"nodes 1\nn 1\nk 1\ndelta none\nmover 1\nlater\nticks 0\n",
        line: 7,
        word: 2,
        fault: Fault::OutOfRange,
    },
    Row {
        story: "n above the number of nodes",
        text: b"nodes 1 2\nn 3\nk 1\n",
        line: 2,
        word: 2,
        fault: Fault::BadN,
    },
    Row {
        story: "n of zero",
        text: b"nodes 1 2\nn 0\n",
        line: 2,
        word: 2,
        fault: Fault::BadN,
    },
    Row {
        story: "n of 33 bits",
        text: b"nodes 1 2\nn 4294967296\n",
        line: 2,
        word: 2,
        fault: Fault::BadN,
    },
    Row {
        story: "k above n",
        text: b"nodes 1 2 3\nn 2\nk 3\n",
        line: 3,
        word: 2,
        fault: Fault::BadK,
    },
    Row {
        story: "k of zero",
        text: b"nodes 1 2 3\nn 2\nk 0\n",
        line: 3,
        word: 2,
        fault: Fault::BadK,
    },
    Row {
        story: "a node named twice",
        text: b"nodes 1 2 1 2\n",
        line: 1,
        word: 4,
        fault: Fault::NodeTwice,
    },
    Row {
        story: "a later node that is there",
        text: b"nodes 1 2\nn 2\nk 1\ndelta none\nmover 1\nlater 3 2\n",
        line: 6,
        word: 3,
        fault: Fault::NodeTwice,
    },
    Row {
        story: "a later node named twice",
        text: b"nodes 1 2\nn 2\nk 1\ndelta none\nmover 1\nlater 3 4 3\n",
        line: 6,
        word: 4,
        fault: Fault::NodeTwice,
    },
    Row {
        story: "a setting behind the last",
        text: b"nodes 1\nn 1\nk 1\ndelta none\nmover 1\nlater\nticks 9\n\nk 1\n",
        line: 9,
        word: 1,
        fault: Fault::SettingTwice,
    },
    Row {
        story: "a word behind the last setting",
        text: b"nodes 1\nn 1\nk 1\ndelta none\nmover 1\nlater\nticks 9\nend\n",
        line: 8,
        word: 1,
        fault: Fault::UnknownSetting,
    },
    Row {
        story: "the first of two faults",
        text: b"nodes 1 x 1\nn y\n",
        line: 1,
        word: 3,
        fault: Fault::NotANumber,
    },
    Row {
        story: "as many nodes as a byte has numbers, which are one too many",
        text: b"nodes 0 1 2 3 4 5 6 7 8 9 10 11 12 13 14 15 16 17 18 19 20 21 22 23 24 25 26 27 28 29 30 31 32 \
            33 34 35 36 37 38 39 40 41 42 43 44 45 46 47 48 49 50 51 52 53 54 55 56 57 58 59 60 61 62 63 64 \
            65 66 67 68 69 70 71 72 73 74 75 76 77 78 79 80 81 82 83 84 85 86 87 88 89 90 91 92 93 94 95 96 \
            97 98 99 100 101 102 103 104 105 106 107 108 109 110 111 112 113 114 115 116 117 118 119 120 \
            121 122 123 124 125 126 127 128 129 130 131 132 133 134 135 136 137 138 139 140 141 142 143 144 \
            145 146 147 148 149 150 151 152 153 154 155 156 157 158 159 160 161 162 163 164 165 166 167 168 \
            169 170 171 172 173 174 175 176 177 178 179 180 181 182 183 184 185 186 187 188 189 190 191 192 \
            193 194 195 196 197 198 199 200 201 202 203 204 205 206 207 208 209 210 211 212 213 214 215 216 \
            217 218 219 220 221 222 223 224 225 226 227 228 229 230 231 232 233 234 235 236 237 238 239 240 \
            241 242 243 244 245 246 247 248 249 250 251 252 253 254 255",
        line: 1,
        word: 257,
        fault: Fault::TooManyNodes,
    },
];
