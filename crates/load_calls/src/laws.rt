//! The laws of loads, each the contract of a function that does nothing.

ghost use Rattle.load_calls.specs.Laws.{GuestsSee, LinesAreCounted, LoadsAreCounted, LoadsArePlaced, LoadsEndAlike, LoadsHaveLines, LoadsKeepToOwn, LoadsPrintAlike, LoadsRunAlone, OrdersEndAlike, OwnersAreTold, OwnersDecide, PagesAddUp, PagesAreSectors, PlacesDecide, PlacesTell, WritesArePlaced};

/// What is so of guests who keep to sectors of their own, however their calls stand between each other.
pub fn owners_decide()
    ensures sectors { OwnersDecide }
    ensures replies { OwnersAreTold }
    ensures orders { OrdersEndAlike }
{}

/// Calls that stand at their guests' places make a history of their lines, and what they are told there is what it tells them.
pub fn places_decide()
    ensures history { PlacesDecide }
    ensures told { PlacesTell }
{}

/// What is so of a load, however its guests' calls stand between each other.
pub fn loads_end_alike()
    ensures made { LoadsHaveLines }
    ensures alone { LoadsRunAlone }
    ensures placed { LoadsArePlaced }
    ensures written { WritesArePlaced }
    ensures own { LoadsKeepToOwn }
    ensures ends { LoadsEndAlike }
    ensures prints { LoadsPrintAlike }
    ensures seen { GuestsSee }
    ensures count { LoadsAreCounted }
    ensures lines { LinesAreCounted }
{}

/// A disk may be summed page by page.
pub fn pages_add_up()
    ensures sectors { PagesAreSectors }
    ensures pages { PagesAddUp }
{}
