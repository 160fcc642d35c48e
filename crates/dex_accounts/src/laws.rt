//! Laws of the market that accounts stand for. A law is a function without a body, and its clause is the law.

ghost use Rattle.std.specs.Prelude.{◌≡◌, ℕ, Bool, List, Some, map};
ghost use Rattle.dex_types.specs.declared.addresses.Address.{Address};
ghost use Rattle.dex_types.specs.declared.orders.Order.{Order};
ghost use Rattle.dex_types.specs.declared.terms.Side.{Side};
ghost use Rattle.dex_types.specs.declared.terms.Side.TheVariants.{Bid, Ask};
ghost use Rattle.dex_types.specs.Accounts.{PlainAccount, PlainMarketAccounts};
ghost use Rattle.dex_types.specs.Market.{Market, capacity, orders};
ghost use Rattle.dex_types.specs.QueuedEvent.{QueuedEvent};
ghost use Rattle.dex_types.specs.Reasons.{event_room};
ghost use Rattle.dex_types.specs.Side.{Coin, Pc, by_side};
ghost use Rattle.dex_types.specs.Trader.{Open, Trader, Traders, put_trader, trader_at};
ghost use Rattle.dex_market.specs.MarketAccount.{market_words, sizes_of};
ghost use Rattle.dex_market.specs.RequestQueue.{IsRequestQueue, next_sequence};
ghost use Rattle.dex_market.specs.StandsFor.{StandsForMarket};
ghost use Rattle.dex_orders.specs.OrdersAccount.{account_of};
ghost use Rattle.dex_orders.specs.StandsFor.{StandForTraders, StandsForTrader};
ghost use Rattle.dex_ring.specs.Ring.{IsEventQueue, ring_of, room_of};
ghost use Rattle.dex_ring.specs.StandsFor.{ring_of_market};
ghost use Rattle.dex_slab.specs.StandsFor.{IsSideAccount};
ghost use Rattle.dex_token.specs.StandsFor.{StandsForVault};
ghost use Rattle.dex_accounts.specs.Decoded.{market_in};
ghost use Rattle.dex_accounts.specs.Owners.{bytes_at, changed_at};
ghost use Rattle.dex_accounts.specs.StandsFor.{StandsFor};
ghost use Rattle.dex_accounts.specs.Parts.{AreOf, HasOpen, MarketParts, parts_of, side_orders, side_room, with_account, with_amounts, with_side};

/// A market's accounts stand for one market: they determine all of it.
pub fn accounts_stand_for_one_market()
    ensures { (accounts : PlainMarketAccounts) (market other : Market) → StandsFor accounts market
        → StandsFor accounts other → market ≡ other }
{}

/// Where accounts stand for a market, it is the one that they tell.
pub fn accounts_tell_their_market()
    ensures { (accounts : PlainMarketAccounts) (market : Market) → StandsFor accounts market
        → market_in accounts ≡ market }
{}

/// The parts that accounts hold are those of the market that they stand for.
pub fn parts_of_accounts_are_of_their_market()
    ensures { (accounts : PlainMarketAccounts) (market : Market) → StandsFor accounts market
        → AreOf (parts_of accounts) market }
{}

/// And back again: accounts stand for the market of their parts, where addresses and vaults are its, and the sides are
/// accepted.
pub fn accounts_stand_for_the_market_of_their_parts()
    ensures { (accounts : PlainMarketAccounts) (m : Market) → AreOf (parts_of accounts) m
        → accounts.address ≡ m.listing.address → accounts.authority ≡ m.listing.authority
        → StandsForVault accounts.coin_vault Coin m → StandsForVault accounts.pc_vault Pc m
        → IsSideAccount Bid accounts.bids → IsSideAccount Ask accounts.asks → StandsFor accounts m }
{}

/// The parts of a market tell its lot sizes, its event queue and the room of it, and of each side orders and room.
pub fn parts_tell_their_market()
    ensures sizes { (parts : MarketParts) (m : Market) → AreOf parts m
        → sizes_of (market_words parts.market) ≡ m.listing.sizes }
    ensures events { (parts : MarketParts) (m : Market) → AreOf parts m
        → ring_of parts.events ≡ ring_of_market m }
    ensures event_room { (parts : MarketParts) (m : Market) → AreOf parts m
        → room_of (ring_of parts.events) ≡ event_room m }
    ensures orders { (parts : MarketParts) (m : Market) → AreOf parts m → (side : Side)
        → side_orders side parts ≡ orders side m }
    ensures room { (parts : MarketParts) (m : Market) → AreOf parts m → (side : Side)
        → side_room side parts ≡ capacity side m }
{}

/// An open account among the parts of a market is that of its open trader.
pub fn an_open_account_is_its_traders()
    ensures trader { (parts : MarketParts) (m : Market) → AreOf parts m → (owner : Address) (bytes : List ℕ)
        → HasOpen owner bytes parts
        → trader_at owner m.traders ≡ Some (Open (account_of bytes)) }
    ensures stands { (parts : MarketParts) (m : Market) → AreOf parts m → (owner : Address) (bytes : List ℕ)
        → HasOpen owner bytes parts
        → StandsForTrader bytes m.listing.address (Open (account_of bytes)) }
{}

/// Where one owner's account is replaced by one that stands for a trader, the accounts stand for the traders with that
/// one. No account gets another address.
pub fn a_replaced_account_stands_for_its_replaced_trader()
    ensures stand { (owner : Address) (change : List ℕ → List ℕ) (trader : Trader) (accounts : List PlainAccount)
        (market : Address) (traders : Traders)
        (old : List ℕ) → StandForTraders accounts market traders → bytes_at owner accounts ≡ Some old
        → StandsForTrader (change old) market trader
        → StandForTraders (changed_at owner change accounts) market (put_trader owner trader traders) }
    ensures addresses { (owner : Address) (change : List ℕ → List ℕ) (accounts : List PlainAccount)
        → map (λ (account : PlainAccount). account.address) (changed_at owner change accounts)
        ≡ map (λ (account : PlainAccount). account.address) accounts }
    ensures found { (owner : Address) (change : List ℕ → List ℕ) (accounts : List PlainAccount) (bytes : List ℕ)
        → bytes_at owner accounts ≡ Some bytes → bytes_at owner (changed_at owner change accounts)
        ≡ Some (change bytes) }
{}

/// Parts of a market into which something was put are those of the market with it.
pub fn what_is_put_into_parts_is_put_into_their_market()
    ensures side { (parts : MarketParts) (m : Market) → AreOf parts m → (side : Side) (resting : List Order)
        → AreOf (with_side side resting parts)
        (record m { bids = by_side side resting m.bids; asks = by_side side m.asks resting }) }
    ensures market { (parts : MarketParts) (m : Market) → AreOf parts m → (bytes : List ℕ)
        (coin_vault pc_vault coin_fees pc_fees referrer_rebates : ℕ) (is_disabled : Bool) →
        let now = with_amounts coin_vault pc_vault coin_fees pc_fees referrer_rebates is_disabled m in
        StandsForMarket bytes now → AreOf (record parts { market = bytes }) now }
    ensures events { (parts : MarketParts) (m : Market) → AreOf parts m
        → (bytes : List ℕ) (events : List QueuedEvent) (appended : ℕ)
        → IsEventQueue bytes → ring_of bytes ≡ record (ring_of_market m) { events = events; seq_num = appended }
        → AreOf (record parts { events = bytes }) (record m { events = events; events_appended = appended }) }
    ensures requests { (parts : MarketParts) (m : Market) → AreOf parts m → (bytes : List ℕ) (next : ℕ)
        → IsRequestQueue bytes
        → next_sequence bytes ≡ next
        → AreOf (record parts { requests = bytes }) (record m { next_sequence = next }) }
    ensures accounts { (parts : MarketParts) (m : Market) → AreOf parts m
        → (accounts : List PlainAccount) (traders : Traders)
        → StandForTraders accounts m.listing.address traders
        → AreOf (record parts { accounts = accounts }) (record m { traders = traders }) }
    ensures account { (parts : MarketParts) (m : Market) → AreOf parts m
        → (owner : Address) (old bytes : List ℕ) (trader : Trader)
        → bytes_at owner parts.accounts ≡ Some old → StandsForTrader bytes m.listing.address trader
        → AreOf (with_account owner bytes parts) (record m { traders = put_trader owner trader m.traders }) }
{}
