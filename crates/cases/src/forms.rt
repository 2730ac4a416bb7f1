// Forms as a member writes and restates them.
use crate::callers::{moved_and_back, small};
use rules::form::Form;
use rules::refusal::Refusal;
use rules::sheet::DaySheet;
use rules::terms::{Kind, SideName, Terms};
use std::test::Fail;

const SALE: Terms = Terms {
    side: SideName::Ask,
    limit: 4004,
    shares: 5000,
    kind: Kind::HalfStep,
    immediate: true,
    directed: true,
};

fn refused<E: Drop>(_error: E) -> Fail {
    Fail::new("refused")
}

fn sheet() -> Result<DaySheet, Fail> {
    DaySheet::new(4000, 1000).map_err(refused)
}

fn form() -> Result<Form, Fail> {
    Form::write(&sheet()?, SALE).map_err(refused)
}

#[test]
fn restating_keeps_side_kind_and_marks(rt: HostRuntime) -> Result<(), Fail> {
    let form = form()?.restate(4008, 5100).map_err(refused)?;
    assert!(rt;
        form.terms()
            == Terms {
                limit: 4008,
                shares: 5100,
                ..SALE
            }
    );
    assert!(rt; form.bound() == 4010);
    assert!(rt; form.is_large());
    Ok(())
}

#[test]
fn refused_restating_hands_the_form_back(rt: HostRuntime) -> Result<(), Fail> {
    let Err(back) = form()?.restate(4002, 50) else {
        return Err(Fail::new("taken"));
    };
    assert!(rt; back.refusal == Refusal::BadPrice);
    assert!(rt; back.form.terms() == SALE);
    let Err(back) = back.form.restate(4008, 50) else {
        return Err(Fail::new("taken"));
    };
    assert!(rt; back.refusal == Refusal::BadQuantity);
    assert!(rt; back.form.terms() == SALE);
    Ok(())
}

#[test]
fn restating_to_the_same_terms_is_taken(rt: HostRuntime) -> Result<(), Fail> {
    let form = form()?.restate(SALE.limit, SALE.shares).map_err(refused)?;
    let form = moved_and_back(form, 8).map_err(refused)?;
    assert!(rt; form.terms() == SALE);
    Ok(())
}

#[test]
fn fifty_units_need_a_better_price(rt: HostRuntime) -> Result<(), Fail> {
    let sheet = sheet()?;
    let fifty = Terms {
        limit: 4000,
        ..SALE
    };
    let more = Terms {
        limit: 4000,
        shares: 5100,
        ..SALE
    };
    assert!(rt; matches!(small(&sheet, fifty), Ok(true)));
    assert!(rt; matches!(small(&sheet, more), Ok(false)));
    Ok(())
}
