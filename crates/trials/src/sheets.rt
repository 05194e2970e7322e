// Prices and heads: what a sheet promises of each of them, their limits, and what a sheet then holds.
ghost use Rattle.std.specs.Prelude.{◌≡◌};
ghost use Rattle.heads.specs.Orders.{zero_head};
ghost use Rattle.measures.specs.Writing.{Everywhere, on};
ghost use Rattle.measures.specs.Sheets.{price_on, price_scale, SetPrice, Adds, head_on, head_scale, SetHead};

use heads::head::{Head, LARGEST};
use measures::head_sheet::HeadSheet;
use measures::measure::Measure;
use measures::pence::MOST_PENCE;
use measures::price_sheet::PriceSheet;
use measures::value::{compare, value_of};
use refusals::Refusal;
use sets::parts::Parts;
use std::cmp::Ordering;

// The promises of a sheet over any cards, in the words of prices and of heads: each call here only hands on.
fn new_prices() -> PriceSheet
    ensures { Everywhere 0 (price_on result) }
{
    PriceSheet::new()
}

fn set_price(sheet: &mut PriceSheet, part: u8, pence: u64) -> Result<(), Refusal>
    ensures { SetPrice part pence sheet.old sheet.new result }
{
    sheet.set(part, pence)
}

fn price(sheet: &PriceSheet, part: u8) -> Option<u64>
    ensures { result ≡ price_on sheet.now part }
{
    sheet.card(part)
}

fn with_price(sheet: &PriceSheet, value: u64, part: u8) -> u64
    ensures extended { result ≡ (price_scale sheet.now).extend value part }
    ensures adds { Adds sheet.now value part result }
{
    sheet.extend(&value, part)
}

fn new_heads() -> HeadSheet
    ensures { Everywhere zero_head (head_on result) }
{
    HeadSheet::new()
}

fn set_head(sheet: &mut HeadSheet, part: u8, pattern: u32) -> Result<(), Refusal>
    ensures { SetHead part pattern sheet.old sheet.new result }
{
    sheet.set(part, pattern)
}

fn head(sheet: &HeadSheet, part: u8) -> Option<Head>
    ensures shown { result ≡ head_on sheet.now part }
    ensures card { result ≡ on sheet.now part }
{
    sheet.card(part)
}

fn with_head(sheet: &HeadSheet, value: Head, part: u8) -> Head
    ensures { result ≡ (head_scale sheet.now).extend value part }
{
    sheet.extend(&value, part)
}

#[test]
fn prices(rt: HostRuntime) {
    let mut sheet = new_prices();
    assert_eq!(rt; price(&sheet, 0), Some(0));
    assert_eq!(rt; price(&sheet, 63), Some(0));
    assert_eq!(rt; price(&sheet, 64), None);
    assert_eq!(rt; set_price(&mut sheet, 63, 1_000_000_000), Ok(()));
    assert_eq!(rt;
        set_price(&mut sheet, 62, MOST_PENCE + 1),
        Err(Refusal::PriceLimit { part: 62 })
    );
    assert_eq!(rt;
        set_price(&mut sheet, 63, u64::MAX),
        Err(Refusal::PriceLimit { part: 63 })
    );
    assert_eq!(rt;
        set_price(&mut sheet, 64, 0),
        Err(Refusal::NoPart { part: 64 })
    );
    assert_eq!(rt;
        set_price(&mut sheet, 255, u64::MAX),
        Err(Refusal::NoPart { part: 255 })
    );
    assert_eq!(rt; price(&sheet, 62), Some(0));
    assert_eq!(rt; price(&sheet, 63), Some(1_000_000_000));
    assert_eq!(rt; set_price(&mut sheet, 1, 5), Ok(()));
    assert_eq!(rt;
        value_of(&sheet, Parts::from_bits(1 << 63 | 3)),
        1_000_000_005
    );
}

#[test]
fn saturation(rt: HostRuntime) {
    let mut sheet = new_prices();
    assert_eq!(rt; set_price(&mut sheet, 0, MOST_PENCE), Ok(()));
    assert_eq!(rt; with_price(&sheet, u64::MAX - MOST_PENCE, 0), u64::MAX);
    assert_eq!(rt; with_price(&sheet, u64::MAX - MOST_PENCE + 1, 0), u64::MAX);
    assert_eq!(rt; with_price(&sheet, u64::MAX, 0), u64::MAX);
    assert_eq!(rt;
        with_price(&sheet, u64::MAX - MOST_PENCE - 1, 0),
        u64::MAX - 1
    );
    assert_eq!(rt; with_price(&sheet, 7, 64), 7);
    assert_eq!(rt; with_price(&sheet, 7, 255), 7);
}

#[test]
fn heads_of_water(rt: HostRuntime) {
    let mut sheet = new_heads();
    assert_eq!(rt; set_head(&mut sheet, 0, 0), Ok(()));
    assert_eq!(rt; set_head(&mut sheet, 63, LARGEST), Ok(()));
    for pattern in [0x42C8_0001, 0x7F80_0000, 0x7FC0_0000, 0x8000_0000, u32::MAX] {
        assert_eq!(rt;
            set_head(&mut sheet, 63, pattern),
            Err(Refusal::HeadRange { part: 63 })
        );
        assert_eq!(rt;
            set_head(&mut sheet, 64, pattern),
            Err(Refusal::NoPart { part: 64 })
        );
        assert!(rt; Head::from_pattern(pattern).is_none());
    }
    assert_eq!(rt;
        set_head(&mut sheet, 255, 0),
        Err(Refusal::NoPart { part: 255 })
    );
    assert!(rt; value_of(&sheet, Parts::from_bits(1 << 63)).metres() == 100.0);
    assert!(rt; value_of(&sheet, Parts::from_bits(1)).metres() == 0.0);
    assert!(rt; head(&sheet, 64).is_none());
}

// 1.5 and 0.75 metres: the larger counts, in whichever order the parts come
#[test]
fn larger_head(rt: HostRuntime) {
    let mut sheet = new_heads();
    assert_eq!(rt; set_head(&mut sheet, 0, 0x3FC0_0000), Ok(()));
    assert_eq!(rt; set_head(&mut sheet, 1, 0x3F40_0000), Ok(()));
    assert_eq!(rt; set_head(&mut sheet, 2, 0x3FC0_0000), Ok(()));
    let both = value_of(&sheet, Parts::from_bits(3));
    let low = value_of(&sheet, Parts::from_bits(2));
    let other = value_of(&sheet, Parts::from_bits(6));
    assert!(rt; both.metres() == 1.5);
    assert!(rt; low.metres() == 0.75);
    assert!(rt; with_head(&sheet, both, 1).metres() == 1.5);
    assert!(rt; with_head(&sheet, low, 0).metres() == 1.5);
    assert_eq!(rt; compare(&sheet, &low, &both), Ordering::Less);
    assert_eq!(rt; compare(&sheet, &both, &low), Ordering::Greater);
    assert_eq!(rt; compare(&sheet, &both, &other), Ordering::Equal);
}
