ghost use Rattle.channel_uri.specs.Address.{AddressesAreReadBack, AddressesHaveOneText};
ghost use Rattle.channel_uri.specs.Canonical.{CanonicalDenotes};
ghost use Rattle.channel_uri.specs.Channel.{EndpointsAreDenoted};
ghost use Rattle.channel_uri.specs.Keys.{LastValueStands};
ghost use Rattle.channel_uri.specs.Parameters.{StatedIsRead, ValuesKeepTheirRules};

/// Of several pairs with one key the last one stands.
pub fn last_value_stands()
    ensures { LastValueStands }
{}

/// Each value of a channel that a text denotes keeps the rule of its key.
pub fn values_keep_their_rules()
    ensures { ValuesKeepTheirRules }
{}

/// What stands in the text of a channel is read: the parameters of a channel are missing only where their keys are.
pub fn stated_is_read()
    ensures { StatedIsRead }
{}

/// The canonical text of a channel that a text denotes has the keys in byte order, and denotes the same channel.
pub fn canonical_denotes()
    ensures { CanonicalDenotes }
{}

/// A text that is an address is the one way to write it, so places with equal addresses have equal texts.
pub fn addresses_have_one_text()
    ensures { AddressesHaveOneText }
{}

/// An address that a channel may name is read back from what it is written as, and no text is another address.
pub fn addresses_are_read_back()
    ensures { AddressesAreReadBack }
{}

/// The channel of an address that a channel may name is what its text denotes.
pub fn endpoints_are_denoted()
    ensures { EndpointsAreDenoted }
{}
