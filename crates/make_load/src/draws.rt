//! What is drawn for an order.
ghost use Rattle.std.specs.Prelude.{◌≡◌, ◌<◌};
ghost use Rattle.make_load.specs.Draws.{draws_from, drawn, fate_of, next_state};

/// What one step of the generator multiplies its number by.
const FACTOR: u64 = 6_364_136_223_846_793_005;

/// What one step of the generator adds.
const STEP: u64 = 1_442_695_040_888_963_407;

/// What the low bits of the generator's number are worth, which no draw looks at.
const LOW: u64 = 1 << 33;

/// What becomes of an order that was taken.
#[derive(Clone, Copy, Debug, PartialEq, Eq)]
pub(crate) enum Fate {
    /// It is filled, all of it at its price.
    Filled,
    /// Its client cancels it.
    Canceled,
    /// Nothing more is heard of it.
    Left,
}

/// What is drawn for one order, and the generator's number after it.
#[derive(Clone, Copy, Debug)]
pub(crate) struct Draws {
    /// The number of the account, from 0.
    pub account: u32,
    /// The number of the symbol, from 0.
    pub symbol: u32,
    /// Side (54): 1 or 2.
    pub side: u32,
    /// OrderQty (38), in shares.
    pub quantity: u32,
    /// Price (44), in whole currency units.
    pub price: u32,
    pub fate: Fate,
    pub state: u64,
}

/// One step of the generator, and a draw below a number.
fn draw(state: &mut u64, below: u32) -> u32
    requires { 0 < below }
    ensures state { state.new ≡ next_state state.old }
    ensures drawn { result ≡ drawn state.new below }
    ensures below { result < below }
{
    *state = state.wrapping_mul(FACTOR).wrapping_add(STEP);
    (*state / LOW % u64::from(below)) as u32
}

/// What a draw below 4 makes of an order.
fn fate_of(drawn: u32) -> Fate
    ensures { result ≡ fate_of drawn }
{
    match drawn {
        0 => Fate::Filled,
        1 => Fate::Canceled,
        _ => Fate::Left,
    }
}

/// The draws for the next order of a session whose generator stands at this number.
pub(crate) fn draws_from(state: u64) -> Draws
    ensures { result ≡ draws_from state }
{
    let mut state = state;
    let account = draw(&mut state, 4);
    let symbol = draw(&mut state, 8);
    let side = draw(&mut state, 2) + 1;
    let quantity = draw(&mut state, 50) + 1;
    let price = draw(&mut state, 90) + 1;
    let fate = fate_of(draw(&mut state, 4));
    Draws {
        account,
        symbol,
        side,
        quantity,
        price,
        fate,
        state,
    }
}
