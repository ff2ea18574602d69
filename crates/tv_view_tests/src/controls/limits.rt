//! Whether what stands in the bars lies within the limits.

ghost use Rattle.std.specs.Prelude.{◌≡◌, All, IsTrue, Some};
ghost use Rattle.tv_model.specs.Faults.Limits.{is_lawful_number};
ghost use Rattle.tv_menu.specs.Lawful.{AreLawfulMenus, AreLawfulStatusItems, IsLawfulItem, IsLawfulMenu, IsLawfulScreen, IsLawfulStatusItem};

use tv_model::{CommandSpec, Menu, MenuItem, StatusItem};

fn is_lawful_command(command: CommandSpec) -> bool
    ensures { result ≡ is_lawful_number (Some command) }
{
    match command {
        CommandSpec::Number(number) => 100 <= number && number <= 255,
        _ => true,
    }
}

fn is_lawful_item(item: &MenuItem) -> bool
    ensures { IsTrue result → IsLawfulItem item.now }
{
    item.text.text.as_slice().len() <= 120 && is_lawful_command(item.command)
}

#[tactic(auto, using(crate::proofs::LawfulLemmas::items_lawful))]
fn are_lawful_items(items: &[MenuItem]) -> bool
    ensures { IsTrue result → All IsLawfulItem items.now }
{
    let Some((item, behind)) = items.split_first() else {
        return true;
    };
    is_lawful_item(item) && are_lawful_items(behind)
}

fn is_lawful_menu(menu: &Menu) -> bool
    ensures { IsTrue result → IsLawfulMenu menu.now }
{
    let items = menu.items.as_slice();
    menu.title.text.as_slice().len() <= 120 && items.len() <= 16 && are_lawful_items(items)
}

#[tactic(auto, using(crate::proofs::LawfulLemmas::menus_lawful))]
fn is_each_lawful(menus: &[Menu]) -> bool
    ensures { IsTrue result → All IsLawfulMenu menus.now }
{
    let Some((menu, behind)) = menus.split_first() else {
        return true;
    };
    is_lawful_menu(menu) && is_each_lawful(behind)
}

/// Whether a bar may have these menus.
pub fn are_lawful_menus(menus: &[Menu]) -> bool
    ensures { IsTrue result → AreLawfulMenus menus.now }
{
    menus.len() <= 8 && is_each_lawful(menus)
}

fn is_lawful_status_item(item: &StatusItem) -> bool
    ensures { IsTrue result → IsLawfulStatusItem item.now }
{
    item.text.as_slice().len() <= 120 && is_lawful_command(item.command)
}

#[tactic(auto, using(crate::proofs::LawfulLemmas::status_items_lawful))]
fn is_each_item_lawful(items: &[StatusItem]) -> bool
    ensures { IsTrue result → All IsLawfulStatusItem items.now }
{
    let Some((item, behind)) = items.split_first() else {
        return true;
    };
    is_lawful_status_item(item) && is_each_item_lawful(behind)
}

/// Whether a status line may have these items.
pub fn are_lawful_status_items(items: &[StatusItem]) -> bool
    ensures { IsTrue result → AreLawfulStatusItems items.now }
{
    items.len() <= 8 && is_each_item_lawful(items)
}

/// Whether a screen may be so large.
pub fn is_lawful_screen(width: &i32, height: &i32) -> bool
    ensures { IsTrue result → IsLawfulScreen width.now height.now }
{
    20 <= *width && *width <= 132 && 10 <= *height && *height <= 60
}
