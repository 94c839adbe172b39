// The exponential G(V) = m * 2^(n - 30) of a voltage for an octave, by a table over one octave.
#![tactic(auto)]

ghost use Rattle.std.specs.Prelude.{◌≡◌, ◌*◌, ◌≤◌, ◌<◌};
ghost use Rattle.std.proofs.Math.IntN.{sub_ℕ};
ghost use Rattle.volts.specs.Volts.{span};
ghost use Rattle.octave.specs.Table.{points, parts, entries, entry_of, mantissa_of};
ghost use Rattle.octave.specs.Position.{InRange};
ghost use Rattle.octave.specs.Exponential.{exponential_of};
ghost use Rattle.octave.specs.inner.Reciprocal.{reciprocal_of, no_reciprocal, place_of, Placeable, Askable};

pub use quotients;
pub use quotients::whole;
pub use volts;
use volts::SPAN;

// Points of the table in an octave, and steps from one to the next.
const POINTS: u64 = 256;

const STEPS: u64 = 256;

// Parts of an octave, in which positions count.
pub const PARTS: u64 = POINTS * STEPS;

// Octaves are in nanovolts and voltages in microvolts.
const NANOVOLTS: u64 = 1000;

const FINE: u64 = NANOVOLTS * PARTS;

// Positions are raised by BIAS octaves, as voltages are by SPAN, so that none is negative.
pub const BIAS: u64 = 8192;

// Binary places of the reciprocal: HALF in its lower half, TOP in the other.
const HALF: u64 = 32;

const TOP: u64 = 22;

const HALF_SPAN: u64 = 1 << HALF;

// Both quotients of the reciprocal take its places in two shifts: one that 64 bits have room for, and the rest of it.
const SCALE_FIRST: u64 = 37;

const SCALE_THEN: u64 = HALF + TOP - SCALE_FIRST;

const REST_FIRST: u64 = 34;

const REST_THEN: u64 = HALF + TOP - REST_FIRST;

// What makes up for the roundings of a product by a raised voltage.
const SLACK: u64 = 2 * SPAN + 1;

// The table has both ends of the octave.
pub const ENTRIES: usize = POINTS as usize + 1;

pub type Table = [u32; ENTRIES];

const POWERS: Table = [
    1073741824, 1076653033, 1079572135, 1082499152, 1085434105, 1088377016, 1091327905, 1094286795,
    1097253708, 1100228664, 1103211687, 1106202797, 1109202017, 1112209369, 1115224875, 1118248556,
    1121280435, 1124320535, 1127368877, 1130425484, 1133490379, 1136563583, 1139645119, 1142735011,
    1145833280, 1148939949, 1152055041, 1155178579, 1158310586, 1161451085, 1164600098, 1167757649,
    1170923761, 1174098458, 1177281762, 1180473696, 1183674285, 1186883552, 1190101520, 1193328212,
    1196563653, 1199807866, 1203060875, 1206322704, 1209593377, 1212872917, 1216161349, 1219458697,
    1222764985, 1226080238, 1229404478, 1232737732, 1236080023, 1239431376, 1242791815, 1246161366,
    1249540052, 1252927899, 1256324931, 1259731173, 1263146651, 1266571389, 1270005412, 1273448746,
    1276901416, 1280363447, 1283834865, 1287315694, 1290805961, 1294305691, 1297814910, 1301333643,
    1304861916, 1308399756, 1311947188, 1315504237, 1319070931, 1322647295, 1326233356, 1329829139,
    1333434672, 1337049980, 1340675090, 1344310029, 1347954823, 1351609500, 1355274085, 1358948606,
    1362633089, 1366327562, 1370032052, 1373746586, 1377471191, 1381205894, 1384950723, 1388705705,
    1392470868, 1396246240, 1400031847, 1403827719, 1407633882, 1411450365, 1415277195, 1419114400,
    1422962010, 1426820051, 1430688553, 1434567543, 1438457050, 1442357103, 1446267730, 1450188959,
    1454120821, 1458063342, 1462016553, 1465980482, 1469955158, 1473940611, 1477936869, 1481943963,
    1485961920, 1489990772, 1494030547, 1498081274, 1502142985, 1506215708, 1510299473, 1514394310,
    1518500249, 1522617321, 1526745556, 1530884983, 1535035633, 1539197537, 1543370725, 1547555227,
    1551751075, 1555958299, 1560176930, 1564406999, 1568648537, 1572901574, 1577166143, 1581442274,
    1585729999, 1590029349, 1594340356, 1598663051, 1602997467, 1607343634, 1611701584, 1616071351,
    1620452965, 1624846458, 1629251864, 1633669214, 1638098541, 1642539876, 1646993254, 1651458705,
    1655936264, 1660425963, 1664927834, 1669441912, 1673968228, 1678506816, 1683057710, 1687620942,
    1692196547, 1696784557, 1701385007, 1705997929, 1710623359, 1715261329, 1719911875, 1724575029,
    1729250826, 1733939301, 1738640487, 1743354420, 1748081133, 1752820662, 1757573041, 1762338305,
    1767116488, 1771907627, 1776711756, 1781528911, 1786359125, 1791202436, 1796058879, 1800928488,
    1805811301, 1810707352, 1815616678, 1820539314, 1825475297, 1830424662, 1835387447, 1840363687,
    1845353419, 1850356680, 1855373506, 1860403934, 1865448001, 1870505743, 1875577199, 1880662405,
    1885761398, 1890874215, 1896000895, 1901141475, 1906295993, 1911464486, 1916646992, 1921843549,
    1927054195, 1932278969, 1937517909, 1942771053, 1948038440, 1953320108, 1958616096, 1963926443,
    1969251187, 1974590369, 1979944027, 1985312199, 1990694927, 1996092248, 2001504204, 2006930832,
    2012372173, 2017828268, 2023299155, 2028784876, 2034285470, 2039800977, 2045331439, 2050876895,
    2056437386, 2062012953, 2067603638, 2073209480, 2078830521, 2084466802, 2090118365, 2095785251,
    2101467501, 2107165158, 2112878262, 2118606856, 2124350982, 2130110682, 2135885998, 2141676972,
    2147483648,
];

// The reciprocal of the octave w, FINE * 2^54 / w, is high * 2^32 + low; base and add raise a position by BIAS.
#[derive(Clone, Copy, Default)]
pub struct Reciprocal {
    pub w: u32,
    pub high: u32,
    pub low: u32,
    pub base: u32,
    pub add: u64,
}

// m, and n raised by BIAS.
#[derive(Clone, Copy, Default)]
pub struct Exponential {
    pub m: u64,
    pub n: u64,
}

// The table, to be kept once for a call and lent from there: its 257 stores are written where it stands.
pub fn table() -> Table
    ensures { result ≡ entries }
{
    POWERS
}

// What is worked once for the octave w.
pub fn reciprocal_of(w: u64) -> Reciprocal
    requires { InRange w }
    ensures { result ≡ reciprocal_of w }
{
    let scale = quotients::shifted_quotient(FINE << SCALE_FIRST, SCALE_THEN, w, u64::MAX);
    let offset = w * (BIAS * PARTS) - SPAN * FINE;
    let rest = quotients::shifted_quotient(offset % w << REST_FIRST, REST_THEN, w, u64::MAX);
    Reciprocal {
        w: w as u32,
        high: (scale / HALF_SPAN) as u32,
        low: (scale % HALF_SPAN) as u32,
        base: (offset / w) as u32,
        add: rest + SLACK,
    }
}

// The reciprocal of no octave.
pub fn no_reciprocal() -> Reciprocal
    ensures { result ≡ no_reciprocal }
{
    Reciprocal::default()
}

// The position of u - SPAN microvolts, raised by BIAS octaves, in parts of one and rounded downward.
pub fn place(u: u64, o: Reciprocal) -> u64
    requires { Placeable u o }
    ensures { result ≡ place_of u o.w }
{
    let low = u * (o.low as u64) + o.add;
    let high = u * (o.high as u64) + (low >> HALF);
    (o.base as u64) + (high >> TOP)
}

// The entry at j of the lent table.
fn entry(t: &Table, j: usize) -> u64
    requires j_le_points { j ≤ points }
    requires t_value { t.now ≡ entries }
    ensures { result ≡ entry_of j }
{
    u64::from(t[j])
}

// The mantissa at the part f of an octave.
fn mantissa(t: &Table, f: u64) -> u64
    requires f_lt_parts { f < parts }
    requires t_value { t.now ≡ entries }
    ensures { result ≡ mantissa_of f }
{
    let j = (f / STEPS) as usize;
    let low = entry(t, j);
    let high = entry(t, j + 1);
    low + (high - low) * (f % STEPS) / STEPS
}

// The exponential at u - SPAN microvolts, for an octave's reciprocal.
pub fn exponential_at(t: &Table, u: u64, o: Reciprocal) -> Exponential
    requires { Askable t.now u o }
    ensures { result ≡ exponential_of (sub_ℕ u span) o.w }
{
    let p = place(u, o);
    Exponential {
        m: mantissa(t, p % PARTS),
        n: p / PARTS,
    }
}
