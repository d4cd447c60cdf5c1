//! Files that other programs wrote, by `tools/avro_samples.py`.

/// A file without blocks, of python3-avro.
pub static NO_BLOCKS: &[u8] =
    b"Obj\x01\x04\x14avro.codec\x08null\x16avro.schema\xde\x02{\"type\": \"record\", \"name\": \"r\", \"fields\": [{\"type\": \"long\", \"name\": \"a\"}, {\"type\": [\"null\", \"string\"], \"name\": \"b\"}, {\"type\": {\"type\": \"array\", \"items\": \"int\"}, \"name\": \"c\"}]}\x000123456789abcdef";

/// Blocks of two rows and of three, of python3-avro.
pub static TWO_BLOCKS: &[u8] =
    b"Obj\x01\x04\x14avro.codec\x08null\x16avro.schema\xde\x02{\"type\": \"record\", \"name\": \"r\", \"fields\": [{\"type\": \"long\", \"name\": \"a\"}, {\"type\": [\"null\", \"string\"], \"name\": \"b\"}, {\"type\": {\"type\": \"array\", \"items\": \"int\"}, \"name\": \"c\"}]}\x000123456789abcdef\x04\x1e\x00\x02\x00\x06\x00\x00\x00\x00\x02\x00\x06\x02\x02\x02\x000123456789abcdef\x06:\x04\x02\x04xx\x06\x04\x04\x04\x00\x06\x00\x06\x06\x06\x06\x00\x08\x02\x08xxxx\x06\x08\x08\x08\x000123456789abcdef";

/// A block of one row, compressed, of python3-avro.
pub static DEFLATED: &[u8] =
    b"Obj\x01\x04\x14avro.codec\x0edeflate\x16avro.schema\xde\x02{\"type\": \"record\", \"name\": \"r\", \"fields\": [{\"type\": \"long\", \"name\": \"a\"}, {\"type\": [\"null\", \"string\"], \"name\": \"b\"}, {\"type\": {\"type\": \"array\", \"items\": \"int\"}, \"name\": \"c\"}]}\x000123456789abcdef\x02\x16c`b`c\x00\x02\x00\x004\x000123456789abcdef";

/// Blocks of one card and of two, of avro-c.
pub static CARDS_OF_C: &[u8] =
    b"Obj\x01\x04\x14avro.codec\x08null\x16avro.schema\x98\x05{\"type\":\"record\",\"name\":\"Card\",\"namespace\":\"org.cards\",\"fields\":[{\"name\":\"suit\",\"type\":{\"type\":\"enum\",\"name\":\"Suit\",\"namespace\":\"org.suits\",\"symbols\":[\"SPADES\",\"HEARTS\"]}},{\"name\":\"id\",\"type\":{\"type\":\"fixed\",\"name\":\"Id\",\"size\":2}},{\"name\":\"note\",\"type\":[{\"type\":\"null\"},{\"type\":\"string\"}]},{\"name\":\"played\",\"type\":{\"type\":\"long\"}}]}\x000123456789abcdef\x02\x18\x02ab\x02\x0afirst\x80\x010123456789abcdef\x04*\x00cd\x00\x01\x02ef\x02\x0athird\x80\xa0\xab\xfe\xf9b0123456789abcdef";

/// Blocks of one card and of two, of Java's avro.
pub static CARDS_OF_JAVA: &[u8] =
    b"Obj\x01\x04\x16avro.schema\xd0\x06{\"type\":\"record\",\"name\":\"Card\",\"namespace\":\"org.cards\",\"doc\":\"A card.\",\"fields\":[{\"name\":\"suit\",\"type\":{\"type\":\"enum\",\"name\":\"Suit\",\"namespace\":\"org.suits\",\"doc\":\"Its suit.\",\"symbols\":[\"SPADES\",\"HEARTS\"]}},{\"name\":\"id\",\"type\":{\"type\":\"fixed\",\"name\":\"Id\",\"size\":2}},{\"name\":\"note\",\"type\":[\"null\",\"string\"],\"doc\":\"What is said of it.\",\"default\":null},{\"name\":\"played\",\"type\":{\"type\":\"long\",\"logicalType\":\"timestamp-millis\"}}]}\x0cwriter\x16AvroSamples\x000123456789abcdef\x02\x18\x02ab\x02\x0afirst\x80\x010123456789abcdef\x04*\x00cd\x00\x01\x02ef\x02\x0athird\x80\xa0\xab\xfe\xf9b0123456789abcdef";

/// Blocks of one card, of none and of two, as Java's avro copied them.
pub static CARDS_AND_NONE: &[u8] =
    b"Obj\x01\x04\x16avro.schema\xd0\x06{\"type\":\"record\",\"name\":\"Card\",\"namespace\":\"org.cards\",\"doc\":\"A card.\",\"fields\":[{\"name\":\"suit\",\"type\":{\"type\":\"enum\",\"name\":\"Suit\",\"namespace\":\"org.suits\",\"doc\":\"Its suit.\",\"symbols\":[\"SPADES\",\"HEARTS\"]}},{\"name\":\"id\",\"type\":{\"type\":\"fixed\",\"name\":\"Id\",\"size\":2}},{\"name\":\"note\",\"type\":[\"null\",\"string\"],\"doc\":\"What is said of it.\",\"default\":null},{\"name\":\"played\",\"type\":{\"type\":\"long\",\"logicalType\":\"timestamp-millis\"}}]}\x0cwriter\x16AvroSamples\x000123456789abcdef\x02\x18\x02ab\x02\x0afirst\x80\x010123456789abcdef\x00\x000123456789abcdef\x04*\x00cd\x00\x01\x02ef\x02\x0athird\x80\xa0\xab\xfe\xf9b0123456789abcdef";

/// The bytes of the first block of cards.
pub static ONE_CARD: &[u8] = b"\x02ab\x02\x0afirst\x80\x01";

/// The bytes of the last one.
pub static TWO_CARDS: &[u8] = b"\x00cd\x00\x01\x02ef\x02\x0athird\x80\xa0\xab\xfe\xf9b";
